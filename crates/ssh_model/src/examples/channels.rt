//! The definitions applied to the channels of two toy ends.

ghost use Rattle.std.specs.Prelude.{◌≡◌, ℕ, ◌∷◌, ◌++◌, true, false, List, [], Some, None, codes, replicate, map};
ghost use Rattle.ssh_model.specs.Protocol.Bounds.{largest_data, longest_payload};
ghost use Rattle.ssh_model.specs.Protocol.Bounds.{most_owed_replies, most_waiting_globals, most_waiting_requests};
ghost use Rattle.ssh_model.specs.declared.side.Side.TheVariants.{Client, Server};
ghost use Rattle.ssh_model.specs.Example.Histories.{refusal, ask_refusal, says, hears, says_on, hears_on, offer_of, keyed};
ghost use Rattle.ssh_model.specs.Example.Histories.{served, admitted, fed_again, rekeying, open_message, confirm_message, channel_opened};
ghost use Rattle.ssh_model.specs.Example.Histories.{channel_confirmed, heard_data, heard_eof, heard_request, closed_by_peer, said_data};
ghost use Rattle.ssh_model.specs.Example.Histories.{said_request, wide_channel, requests, connection_asks, patient};
ghost use Rattle.ssh_model.specs.Example.Toys.{toy};
ghost use Rattle.ssh_model.specs.Example.Run.{session};
ghost use Rattle.ssh_model.specs.Protocol.Wire.Message.{Msg.Ignore, Msg.KexInit, Msg.GlobalRequest, Msg.RequestSuccess, Msg.RequestFailure};
ghost use Rattle.ssh_model.specs.Protocol.Wire.Message.{Msg.ChannelOpenConfirmation, Msg.ChannelOpenFailure, Msg.ChannelWindowAdjust};
ghost use Rattle.ssh_model.specs.Protocol.Wire.Message.{Msg.ChannelData, Msg.ChannelExtendedData, Msg.ChannelEof, Msg.ChannelClose};
ghost use Rattle.ssh_model.specs.Protocol.Wire.Message.{Msg.ChannelRequest, Msg.ChannelSuccess, Msg.ChannelFailure};
ghost use Rattle.ssh_model.specs.declared.refusal.Refusal.TheVariants.{Unexpected, UnknownChannel};
ghost use Rattle.ssh_model.specs.Protocol.Sessions.Refusals.{first_refusal};
ghost use Rattle.ssh_model.specs.declared.refusal.Refusal.TheVariants.{WindowOverrun, WindowTooLarge, OwedFull};
ghost use Rattle.ssh_model.specs.declared.ask_refusal.AskRefusal.TheVariants.{NotYet, Busy, NoChannel, NoRoom};
ghost use Rattle.ssh_model.specs.declared.ask_refusal.AskRefusal.TheVariants.{TooLong, TableFull, NothingOwed};
ghost use Rattle.ssh_model.specs.declared.ask_refusal.AskRefusal.{AskRefusal};
ghost use Rattle.ssh_model.specs.declared.ask_refusal.AskRefusal.TheVariants.{RekeyDue, TooMuch};
ghost use Rattle.ssh_model.specs.Protocol.Sessions.Items.{Item, Ask.AskService, Ask.AskRekey, Ask.AskOpen, Ask.AskConfirm};
ghost use Rattle.ssh_model.specs.Protocol.Sessions.Items.{Ask.AskRefuse, Ask.AskData, Ask.AskAdjust, Ask.AskEof, Ask.AskClose};
ghost use Rattle.ssh_model.specs.Protocol.Sessions.Items.{Ask.AskRequest, Ask.AskReply, Ask.AskGlobal, Ask.AskGlobalReply};
ghost use Rattle.ssh_model.specs.Protocol.Sessions.Items.{Ask.AskDisconnect, Fact.Global, Fact.GlobalDone, Fact.Opened, Fact.Confirmed};
ghost use Rattle.ssh_model.specs.Protocol.Sessions.Items.{Fact.OpenFailed, Fact.GotData, Fact.Adjusted, Fact.Ended, Fact.Closed};
ghost use Rattle.ssh_model.specs.Protocol.Sessions.Items.{Fact.Requested, Fact.RequestDone, Item.Told};
ghost use Rattle.ssh_model.specs.Protocol.Sessions.Phases.{blocked, authenticated};
ghost use Rattle.ssh_model.specs.Protocol.Channels.Connection.{notes, is_full, is_limit_reached, is_owed_limit_reached, is_rekey_due};
ghost use Rattle.ssh_model.specs.Protocol.Sessions.Turns.{ask_checks, Answer};
ghost use Rattle.ssh_model.specs.Protocol.Channels.Numbers.{is_confirmed, has_closed};

/// The refusal of a message of the connection by an end, or none.
pub fn refusal_examples()
    ensures many_global_requests { refusal Client (replicate 255 (hears (GlobalRequest [] true [])) ++ admitted Client)
        (GlobalRequest [] true []) ≡ None }
    ensures too_many_global_requests { refusal Client (replicate 256 (hears (GlobalRequest [] true [])) ++ admitted Client)
        (GlobalRequest [] true []) ≡ Some OwedFull }
    ensures global_request_without_reply { refusal Client (replicate 256 (hears (GlobalRequest [] true [])) ++ admitted Client)
        (GlobalRequest [] false []) ≡ None }
    ensures replied_global_request { refusal Client (says RequestFailure ∷ replicate 256 (hears (GlobalRequest [] true [])) ++ admitted
        Client) (GlobalRequest [] true []) ≡ None }
    ensures reply_to_no_global_request { refusal Client (says (GlobalRequest [] false []) ∷ admitted Client) (RequestSuccess [])
        ≡ Some Unexpected }
    ensures failure_of_no_global_request { refusal Client (admitted Client) RequestFailure ≡ Some Unexpected }
    ensures reply_to_global_request { refusal Client (says (GlobalRequest [] true []) ∷ admitted Client) (RequestSuccess []) ≡ None }
    ensures failure_of_global_request { refusal Client (says (GlobalRequest [] true []) ∷ admitted Client) RequestFailure ≡ None }
    ensures second_reply_to_global_request { refusal Client (hears RequestFailure ∷ says (GlobalRequest [] true []) ∷ admitted Client)
        RequestFailure ≡ Some Unexpected }
    ensures channel_open { refusal Server (admitted Server) open_message ≡ None }
    ensures confirmation { refusal Client (channel_opened Client) confirm_message ≡ None }
    ensures confirmation_of_no_channel { refusal Client (admitted Client) confirm_message ≡ Some UnknownChannel }
    ensures second_confirmation { refusal Client (channel_confirmed Client) confirm_message ≡ Some Unexpected }
    ensures confirmation_while_close_is_owed { refusal Client (closed_by_peer Client) confirm_message ≡ Some Unexpected }
    ensures confirmation_after_both_closed { refusal Client (hears_on 3 (ChannelClose 3) ∷ says_on 3 (ChannelClose 5) ∷ channel_confirmed
        Client) confirm_message ≡ Some UnknownChannel }
    ensures confirmation_by_who_opened { refusal Server (channel_opened Server) (ChannelOpenConfirmation 5 3 10 8 []) ≡ Some Unexpected }
    ensures open_failure { refusal Client (channel_opened Client) (ChannelOpenFailure 3 1 [] []) ≡ None }
    ensures open_failure_of_no_channel { refusal Client (admitted Client) (ChannelOpenFailure 3 1 [] []) ≡ Some UnknownChannel }
    ensures failure_after_confirmation { refusal Client (channel_confirmed Client) (ChannelOpenFailure 3 1 [] []) ≡ Some Unexpected }
    ensures failure_while_close_is_owed { refusal Client (closed_by_peer Client) (ChannelOpenFailure 3 1 [] []) ≡ Some Unexpected }
    ensures adjust { refusal Client (channel_confirmed Client) (ChannelWindowAdjust 3 4294967275) ≡ None }
    ensures adjust_too_far { refusal Client (channel_confirmed Client) (ChannelWindowAdjust 3 4294967276) ≡ Some WindowTooLarge }
    ensures adjust_after_data { refusal Client (says_on 3 (ChannelData 5 (codes "x")) ∷ channel_confirmed Client)
        (ChannelWindowAdjust 3 4294967276) ≡ None }
    ensures adjust_of_no_channel { refusal Client (channel_opened Client) (ChannelWindowAdjust 3 4294967296) ≡ Some UnknownChannel }
    ensures adjust_after_close { refusal Client (says_on 3 (ChannelClose 5) ∷ channel_confirmed Client) (ChannelWindowAdjust 3 1) ≡ None }
    ensures adjust_after_close_of_peer { refusal Client (closed_by_peer Client) (ChannelWindowAdjust 3 1) ≡ Some UnknownChannel }
    ensures channel_data { refusal Client (channel_confirmed Client) (ChannelData 3 (replicate 8 0)) ≡ None }
    ensures data_of_no_channel { refusal Client (channel_confirmed Client) (ChannelData 5 []) ≡ Some UnknownChannel }
    ensures data_before_confirmation { refusal Client (channel_opened Client) (ChannelData 3 []) ≡ Some UnknownChannel }
    ensures data_to_unconfirmed { refusal Server (channel_opened Server) (ChannelData 5 []) ≡ Some UnknownChannel }
    ensures data_over_size { refusal Client (channel_confirmed Client) (ChannelData 3 (replicate 9 0)) ≡ Some WindowOverrun }
    ensures data_over_window { refusal Client (heard_data ∷ channel_confirmed Client) (ChannelData 3 (replicate 3 0)) ≡ Some WindowOverrun }
    ensures data_within_window { refusal Client (heard_data ∷ channel_confirmed Client) (ChannelData 3 (replicate 2 0)) ≡ None }
    ensures data_after_adjust { refusal Client (says_on 3 (ChannelWindowAdjust 5 1) ∷ heard_data ∷ channel_confirmed Client)
        (ChannelData 3 (replicate 3 0)) ≡ None }
    ensures data_after_eof { refusal Client (heard_eof ∷ channel_confirmed Client) (ChannelData 3 []) ≡ Some Unexpected }
    ensures data_after_eof_over_window { refusal Client (heard_eof ∷ channel_confirmed Client) (ChannelData 3 (replicate 9 0))
        ≡ Some Unexpected }
    ensures data_after_close { refusal Client (says_on 3 (ChannelClose 5) ∷ channel_confirmed Client) (ChannelData 3 (replicate 8 0))
        ≡ None }
    ensures data_after_close_of_peer { refusal Client (closed_by_peer Client) (ChannelData 3 []) ≡ Some UnknownChannel }
    ensures extended_data { refusal Client (channel_confirmed Client) (ChannelExtendedData 3 1 (replicate 8 0)) ≡ None }
    ensures extended_data_over_size { refusal Client (channel_confirmed Client) (ChannelExtendedData 3 1 (replicate 9 0))
        ≡ Some WindowOverrun }
    ensures extended_data_over_window { refusal Client (heard_data ∷ channel_confirmed Client) (ChannelExtendedData 3 1 (replicate 3 0))
        ≡ Some WindowOverrun }
    ensures extended_data_after_eof { refusal Client (heard_eof ∷ channel_confirmed Client) (ChannelExtendedData 3 1 (replicate 9 0))
        ≡ Some Unexpected }
    ensures extended_data_of_no_channel { refusal Client (channel_confirmed Client) (ChannelExtendedData 5 1 []) ≡ Some UnknownChannel }
    ensures eof { refusal Client (channel_confirmed Client) (ChannelEof 3) ≡ None }
    ensures second_eof { refusal Client (heard_eof ∷ channel_confirmed Client) (ChannelEof 3) ≡ Some Unexpected }
    ensures eof_of_no_channel { refusal Client (channel_opened Client) (ChannelEof 3) ≡ Some UnknownChannel }
    ensures close { refusal Client (heard_eof ∷ channel_confirmed Client) (ChannelClose 3) ≡ None }
    ensures close_of_no_channel { refusal Client (channel_opened Client) (ChannelClose 3) ≡ Some UnknownChannel }
    ensures second_close { refusal Client (hears_on 3 (ChannelClose 3) ∷ says_on 3 (ChannelClose 5) ∷ channel_confirmed Client)
        (ChannelClose 3) ≡ Some UnknownChannel }
    ensures many_requests { refusal Client (replicate 255 heard_request ++ channel_confirmed Client) (ChannelRequest 3 [] true []) ≡ None }
    ensures too_many_requests { refusal Client (replicate 256 heard_request ++ channel_confirmed Client) (ChannelRequest 3 [] true [])
        ≡ Some OwedFull }
    ensures request_without_reply { refusal Client (replicate 256 heard_request ++ channel_confirmed Client)
        (ChannelRequest 3 [] false []) ≡ None }
    ensures request_after_close { refusal Client (says_on 3 (ChannelClose 5) ∷ replicate 256 heard_request ++ channel_confirmed Client)
        (ChannelRequest 3 [] true []) ≡ None }
    ensures request_of_no_channel { refusal Client (channel_opened Client) (ChannelRequest 3 [] true []) ≡ Some UnknownChannel }
    ensures reply_to_request { refusal Client (says_on 3 (ChannelRequest 5 [] true []) ∷ channel_confirmed Client) (ChannelSuccess 3)
        ≡ None }
    ensures failure_of_request { refusal Client (says_on 3 (ChannelRequest 5 [] true []) ∷ channel_confirmed Client) (ChannelFailure 3)
        ≡ None }
    ensures reply_to_no_request { refusal Client (says_on 3 (ChannelRequest 5 [] false []) ∷ channel_confirmed Client) (ChannelSuccess 3)
        ≡ Some Unexpected }
    ensures failure_of_no_request { refusal Client (channel_confirmed Client) (ChannelFailure 3) ≡ Some Unexpected }
    ensures reply_of_no_channel { refusal Client (channel_opened Client) (ChannelSuccess 3) ≡ Some UnknownChannel }
    ensures failure_of_no_channel { refusal Client (channel_opened Client) (ChannelFailure 3) ≡ Some UnknownChannel }
{}

/// The refusal of an ask for the connection, or none.
pub fn ask_examples()
    ensures not_authenticated { map (ask_refusal Client (served Client)) connection_asks ≡ replicate 14 (Some NotYet) }
    ensures blocked_by_own_kexinit { map (ask_refusal Client (rekeying Client)) connection_asks ≡ replicate 14 (Some Busy) }
    ensures rekey_is_due { map (ask_refusal Client (replicate 62 (says (Ignore [])) ++ admitted Client)) connection_asks
        ≡ replicate 14 (Some RekeyDue) }
    ensures blocked_before_rekey_is_due { ask_refusal Client (replicate 62 (says (Ignore [])) ++ rekeying Client) (AskEof 3) ≡ Some Busy }
    ensures rekey_is_not_due { ask_refusal Client (replicate 61 (says (Ignore [])) ++ admitted Client) (AskOpen [] 0 1 []) ≡ None }
    ensures rekey_though_due { ask_refusal Client (replicate 62 (says (Ignore [])) ++ fed_again Client) AskRekey ≡ None }
    ensures service_though_due { ask_refusal Client (replicate 64 (says (Ignore [])) ++ keyed Client) AskService ≡ None }
    ensures request_though_due { map (ask_refusal Client (replicate 64 (says (Ignore [])) ++ served Client)) requests ≡ replicate 4 None }
    ensures disconnect_though_due { ask_refusal Client (replicate 62 (says (Ignore [])) ++ admitted Client) (AskDisconnect []) ≡ None }
    ensures open_by_server { ask_refusal Server (admitted Server) (AskOpen (codes "x") 0 1 []) ≡ None }
    ensures open_of_largest_data { ask_refusal Client (admitted Client) (AskOpen [] 0 largest_data []) ≡ None }
    ensures open_of_larger_data { ask_refusal Client (admitted Client) (AskOpen [] 0 32769 []) ≡ Some TooMuch }
    ensures open_of_no_data { ask_refusal Client (admitted Client) (AskOpen [] 0 0 []) ≡ Some TooMuch }
    ensures long_open { ask_refusal Client (admitted Client) (AskOpen (codes "session") 0 1 (replicate 33976 0)) ≡ None }
    ensures too_long_open { ask_refusal Client (admitted Client) (AskOpen (codes "session") 0 1 (replicate 33977 0)) ≡ Some TooLong }
    ensures too_much_before_too_long { ask_refusal Client (admitted Client) (AskOpen (codes "session") 0 0 (replicate 33977 0))
        ≡ Some TooMuch }
    ensures confirm { ask_refusal Server (channel_opened Server) (AskConfirm 5 20 16 []) ≡ None }
    ensures confirm_of_no_open { ask_refusal Server (channel_opened Server) (AskConfirm 3 20 16 []) ≡ Some NoChannel }
    ensures confirm_of_own_open { ask_refusal Client (channel_opened Client) (AskConfirm 3 20 16 []) ≡ Some NoChannel }
    ensures second_confirm { ask_refusal Server (channel_confirmed Server) (AskConfirm 5 20 0 []) ≡ Some NoChannel }
    ensures confirm_of_larger_data { ask_refusal Server (channel_opened Server) (AskConfirm 5 20 32769 []) ≡ Some TooMuch }
    ensures confirm_of_no_data { ask_refusal Server (channel_opened Server) (AskConfirm 5 20 0 []) ≡ Some TooMuch }
    ensures long_confirm { ask_refusal Server (channel_opened Server) (AskConfirm 5 20 16 (replicate 33983 0)) ≡ None }
    ensures too_long_confirm { ask_refusal Server (channel_opened Server) (AskConfirm 5 20 16 (replicate 33984 0)) ≡ Some TooLong }
    ensures refuse { ask_refusal Server (channel_opened Server) (AskRefuse 5 1) ≡ None }
    ensures refuse_of_no_open { ask_refusal Server (channel_confirmed Server) (AskRefuse 5 1) ≡ Some NoChannel }
    ensures give_data { ask_refusal Client (channel_confirmed Client) (AskData 3 None (replicate 16 0)) ≡ None }
    ensures data_on_no_channel { ask_refusal Client (channel_opened Client) (AskData 3 None []) ≡ Some NoChannel }
    ensures data_after_own_eof { ask_refusal Client (says_on 3 (ChannelEof 5) ∷ channel_confirmed Client)
        (AskData 3 None (replicate 17 0)) ≡ Some AskRefusal.Ended }
    ensures data_after_own_close { ask_refusal Client (says_on 3 (ChannelClose 5) ∷ channel_confirmed Client) (AskData 3 None [])
        ≡ Some AskRefusal.Ended }
    ensures data_after_both_closed { ask_refusal Client (hears_on 3 (ChannelClose 3) ∷ says_on 3 (ChannelClose 5) ∷ channel_confirmed
        Client) (AskData 3 None []) ≡ Some NoChannel }
    ensures data_over_most_of_peer { ask_refusal Client (channel_confirmed Client) (AskData 3 None (replicate 17 0)) ≡ Some TooLong }
    ensures data_over_room { ask_refusal Client (said_data ∷ channel_confirmed Client) (AskData 3 None (replicate 5 0)) ≡ Some NoRoom }
    ensures data_within_room { ask_refusal Client (said_data ∷ channel_confirmed Client) (AskData 3 None (replicate 4 0)) ≡ None }
    ensures too_long_before_no_room { ask_refusal Client (said_data ∷ channel_confirmed Client) (AskData 3 None (replicate 17 0))
        ≡ Some TooLong }
    ensures largest_data { ask_refusal Client wide_channel (AskData 3 None (replicate largest_data 0)) ≡ None }
    ensures larger_data { ask_refusal Client wide_channel (AskData 3 None (replicate 32769 0)) ≡ Some TooLong }
    ensures extended_data_over_room { ask_refusal Client (said_data ∷ channel_confirmed Client) (AskData 3 (Some 1) (replicate 5 0))
        ≡ Some NoRoom }
    ensures extended_data_over_most { ask_refusal Client (channel_confirmed Client) (AskData 3 (Some 1) (replicate 17 0)) ≡ Some TooLong }
    ensures grant { ask_refusal Client (channel_confirmed Client) (AskAdjust 3 4294967285) ≡ None }
    ensures grant_too_much { ask_refusal Client (channel_confirmed Client) (AskAdjust 3 4294967286) ≡ Some TooMuch }
    ensures grant_after_data { ask_refusal Client (heard_data ∷ channel_confirmed Client) (AskAdjust 3 4294967293) ≡ None }
    ensures grant_on_no_channel { ask_refusal Client (channel_opened Client) (AskAdjust 3 1) ≡ Some NoChannel }
    ensures grant_after_own_close { ask_refusal Client (says_on 3 (ChannelClose 5) ∷ channel_confirmed Client) (AskAdjust 3 1)
        ≡ Some AskRefusal.Ended }
    ensures grant_after_own_eof { ask_refusal Client (says_on 3 (ChannelEof 5) ∷ channel_confirmed Client) (AskAdjust 3 1) ≡ None }
    ensures end_of_data { ask_refusal Client (channel_confirmed Client) (AskEof 3) ≡ None }
    ensures second_own_eof { ask_refusal Client (says_on 3 (ChannelEof 5) ∷ channel_confirmed Client) (AskEof 3) ≡ Some AskRefusal.Ended }
    ensures eof_after_own_close { ask_refusal Client (says_on 3 (ChannelClose 5) ∷ channel_confirmed Client) (AskEof 3)
        ≡ Some AskRefusal.Ended }
    ensures eof_on_no_channel { ask_refusal Client (channel_opened Client) (AskEof 3) ≡ Some NoChannel }
    ensures close_after_own_eof { ask_refusal Client (says_on 3 (ChannelEof 5) ∷ channel_confirmed Client) (AskClose 3) ≡ None }
    ensures second_own_close { ask_refusal Client (says_on 3 (ChannelClose 5) ∷ channel_confirmed Client) (AskClose 3)
        ≡ Some AskRefusal.Ended }
    ensures close_on_no_channel { ask_refusal Client (channel_opened Client) (AskClose 3) ≡ Some NoChannel }
    ensures many_own_requests { ask_refusal Client (replicate 255 said_request ++ channel_confirmed Client) (AskRequest 3 [] true [])
        ≡ Some RekeyDue }
    ensures too_many_own_requests { ask_refusal Client (replicate 256 said_request ++ channel_confirmed Client) (AskRequest 3 [] true [])
        ≡ Some Busy }
    ensures own_request_without_reply { ask_refusal Client (replicate 256 said_request ++ channel_confirmed Client)
        (AskRequest 3 [] false []) ≡ Some RekeyDue }
    ensures too_many_requests_on_a_channel { first_refusal (ask_checks patient Client
        (replicate 256 said_request ++ channel_confirmed Client) (AskRequest 3 [] true [])) ≡ Some Busy }
    ensures request_on_unused_number { first_refusal (ask_checks patient Client (replicate 256 said_request ++ channel_confirmed Client)
        (AskRequest 900 [] true [])) ≡ Some NoChannel }
    ensures request_on_no_channel { ask_refusal Client (channel_opened Client) (AskRequest 3 [] true []) ≡ Some NoChannel }
    ensures request_after_own_close { ask_refusal Client (says_on 3 (ChannelClose 5) ∷ channel_confirmed Client) (AskRequest 3 [] true [])
        ≡ Some AskRefusal.Ended }
    ensures long_request { ask_refusal Client (channel_confirmed Client) (AskRequest 3 (codes "x") true (replicate 33989 0)) ≡ None }
    ensures too_long_request { ask_refusal Client (channel_confirmed Client) (AskRequest 3 (codes "x") true (replicate 33990 0))
        ≡ Some TooLong }
    ensures request_reply { ask_refusal Client (heard_request ∷ channel_confirmed Client) (AskReply 3 true) ≡ None }
    ensures reply_to_nothing { ask_refusal Client (channel_confirmed Client) (AskReply 3 false) ≡ Some NothingOwed }
    ensures second_reply { ask_refusal Client (says_on 3 (ChannelFailure 5) ∷ heard_request ∷ channel_confirmed Client) (AskReply 3 true)
        ≡ Some NothingOwed }
    ensures reply_on_no_channel { ask_refusal Client (channel_opened Client) (AskReply 3 true) ≡ Some NoChannel }
    ensures reply_after_own_close { ask_refusal Client (says_on 3 (ChannelClose 5) ∷ channel_confirmed Client) (AskReply 3 true)
        ≡ Some AskRefusal.Ended }
    ensures global_request { ask_refusal Client (admitted Client) (AskGlobal (codes "x") true (replicate 33993 0)) ≡ None }
    ensures too_long_global_request { ask_refusal Client (admitted Client) (AskGlobal (codes "x") true (replicate 33994 0)) ≡ Some TooLong }
    ensures many_own_globals { ask_refusal Client (replicate 255 (says (GlobalRequest [] true [])) ++ admitted Client)
        (AskGlobal [] true []) ≡ Some RekeyDue }
    ensures too_many_own_globals { ask_refusal Client (replicate 256 (says (GlobalRequest [] true [])) ++ admitted Client)
        (AskGlobal [] true []) ≡ Some Busy }
    ensures own_global_without_reply { ask_refusal Client (replicate 256 (says (GlobalRequest [] true [])) ++ admitted Client)
        (AskGlobal [] false []) ≡ Some RekeyDue }
    ensures global_reply { ask_refusal Client (hears (GlobalRequest [] true []) ∷ admitted Client)
        (AskGlobalReply true (replicate 33999 0)) ≡ None }
    ensures too_long_global_reply { ask_refusal Client (hears (GlobalRequest [] true []) ∷ admitted Client)
        (AskGlobalReply true (replicate longest_payload 0)) ≡ Some TooLong }
    ensures global_reply_to_nothing { ask_refusal Client (hears (GlobalRequest [] false []) ∷ admitted Client)
        (AskGlobalReply true (replicate longest_payload 0)) ≡ Some NothingOwed }
    ensures global_failure { ask_refusal Client (hears (GlobalRequest [] true []) ∷ admitted Client) (AskGlobalReply false []) ≡ None }
    ensures global_failure_of_nothing { ask_refusal Client (admitted Client) (AskGlobalReply false []) ≡ Some NothingOwed }
{}

/// The items that an end adds to a message of the connection that it took, the newest first.
pub fn answer_examples()
    ensures global_request_taken { Answer toy Client (channel_confirmed Client) None (GlobalRequest (codes "x") true (codes "y"))
        (Told (Global (codes "x") true (codes "y")) ∷ []) }
    ensures global_success_taken { Answer toy Client (channel_confirmed Client) None (RequestSuccess (codes "x"))
        (Told (GlobalDone true (codes "x")) ∷ []) }
    ensures global_failure_taken { Answer toy Client (channel_confirmed Client) None RequestFailure (Told (GlobalDone false []) ∷ []) }
    ensures open_taken { Answer toy Server (admitted Server) (Some 5) open_message (Told (Opened 5 (codes "session") 10 8 []) ∷ []) }
    ensures open_taken_at_last_number { Answer toy Server (admitted Server) (Some 1023) open_message
        (Told (Opened 1023 (codes "session") 10 8 []) ∷ []) }
    ensures open_without_place { (h : List Item) → is_full Server h ≡ true → blocked h ≡ false →
        Answer toy Server h None open_message (says (ChannelOpenFailure 3 4 [] []) ∷ []) }
    ensures open_without_place_while_blocked { (h : List Item) → is_full Server h ≡ true → blocked h ≡ true →
        Answer toy Server h None open_message [] }
    ensures confirmation_taken { Answer toy Client (channel_opened Client) (Some 3) confirm_message (Told (Confirmed 3 20 16 []) ∷ []) }
    ensures open_failure_taken { Answer toy Client (channel_opened Client) (Some 3) (ChannelOpenFailure 3 1 (codes "x") [])
        (Told (OpenFailed 3 1 (codes "x")) ∷ []) }
    ensures adjust_taken { Answer toy Client (channel_confirmed Client) (Some 3) (ChannelWindowAdjust 3 7) (Told (Adjusted 3 7) ∷ []) }
    ensures data_taken { Answer toy Client (channel_confirmed Client) (Some 3) (ChannelData 3 (codes "x"))
        (Told (GotData 3 None (codes "x")) ∷ []) }
    ensures extended_data_taken { Answer toy Client (channel_confirmed Client) (Some 3) (ChannelExtendedData 3 1 (codes "x"))
        (Told (GotData 3 (Some 1) (codes "x")) ∷ []) }
    ensures eof_taken { Answer toy Client (channel_confirmed Client) (Some 3) (ChannelEof 3) (Told (Ended 3) ∷ []) }
    ensures close_answered { Answer toy Client (channel_confirmed Client) (Some 3) (ChannelClose 3)
        (Told (Closed 3) ∷ says_on 3 (ChannelClose 5) ∷ []) }
    ensures close_after_close { Answer toy Client (says_on 3 (ChannelClose 5) ∷ channel_confirmed Client) (Some 3) (ChannelClose 3)
        (Told (Closed 3) ∷ []) }
    ensures close_while_blocked { Answer toy Client (says (KexInit (offer_of Client false)) ∷ channel_confirmed Client) (Some 3)
        (ChannelClose 3) (Told (Closed 3) ∷ []) }
    ensures request_taken { Answer toy Client (channel_confirmed Client) (Some 3) (ChannelRequest 3 (codes "x") true (codes "y"))
        (Told (Requested 3 (codes "x") true (codes "y")) ∷ []) }
    ensures success_taken { Answer toy Client (channel_confirmed Client) (Some 3) (ChannelSuccess 3) (Told (RequestDone 3 true) ∷ []) }
    ensures failure_taken { Answer toy Client (channel_confirmed Client) (Some 3) (ChannelFailure 3) (Told (RequestDone 3 false) ∷ []) }
{}

/// The limits of channels and owed replies: with all its channels in use an end has no place for another,
/// and it owes at most 256 replies.
pub fn limits()
    ensures open_refused_while_many_are_owed { (h : List Item) → is_full Client h ≡ true → is_owed_limit_reached Client h ≡ true →
        refusal Client h open_message ≡ Some OwedFull }
    ensures open_while_few_are_owed { (h : List Item) → is_owed_limit_reached Client h ≡ false → refusal Client h open_message ≡ None }
    ensures open_with_place { (h : List Item) → is_full Client h ≡ false → refusal Client h open_message ≡ None }
    ensures close_refused_while_many_are_owed { (h : List Item) (x : ℕ) → is_confirmed x (notes Client h) ≡ true →
        has_closed x (notes Client h) ≡ false → is_owed_limit_reached Client h ≡ true →
        refusal Client h (ChannelClose x) ≡ Some OwedFull }
    ensures close_that_owes_nothing { (h : List Item) (x : ℕ) → is_confirmed x (notes Client h) ≡ true →
        has_closed x (notes Client h) ≡ true → refusal Client h (ChannelClose x) ≡ None }
    ensures many_requests { map (is_limit_reached most_waiting_requests) (255 ∷ 256 ∷ []) ≡ false ∷ true ∷ [] }
    ensures many_globals { map (is_limit_reached most_waiting_globals) (255 ∷ 256 ∷ []) ≡ false ∷ true ∷ [] }
    ensures many_replies { map (is_limit_reached most_owed_replies) (255 ∷ 256 ∷ []) ≡ false ∷ true ∷ [] }
    ensures many_are_owed_while_blocked { (h : List Item) → blocked h ≡ false → is_owed_limit_reached Client h ≡ false }
    ensures open_asked_without_place { (h : List Item) (window most : ℕ) → authenticated Client h ≡ true → blocked h ≡ false →
        is_rekey_due toy Client h ≡ false → is_full Client h ≡ true → ask_refusal Client h (AskOpen [] window most []) ≡ Some TableFull }
{}
