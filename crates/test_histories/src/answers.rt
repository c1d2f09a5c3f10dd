//! What the ends do in the drawn sessions, message after message and ask after ask; written by tools/second_reading.

ghost use Rattle.std.specs.Prelude.{[]};
ghost use Rattle.ssh_model.specs.declared.side.Side.TheVariants.{Client, Server};
ghost use Rattle.test_histories.specs.Words.{Answered};
ghost use Rattle.test_histories.specs.Drawn.Client01 as client01;
ghost use Rattle.test_histories.specs.Drawn.Server01 as server01;
ghost use Rattle.test_histories.specs.Drawn.Client02 as client02;
ghost use Rattle.test_histories.specs.Drawn.Server02 as server02;
ghost use Rattle.test_histories.specs.Drawn.Client03 as client03;
ghost use Rattle.test_histories.specs.Drawn.Server03 as server03;
ghost use Rattle.test_histories.specs.Drawn.Client04 as client04;
ghost use Rattle.test_histories.specs.Drawn.Server04 as server04;
ghost use Rattle.test_histories.specs.Drawn.Client05 as client05;
ghost use Rattle.test_histories.specs.Drawn.Server05 as server05;
ghost use Rattle.test_histories.specs.Drawn.Client06 as client06;
ghost use Rattle.test_histories.specs.Drawn.Server06 as server06;
ghost use Rattle.test_histories.specs.Drawn.Client07 as client07;
ghost use Rattle.test_histories.specs.Drawn.Server07 as server07;
ghost use Rattle.test_histories.specs.Drawn.Client08 as client08;
ghost use Rattle.test_histories.specs.Drawn.Server08 as server08;
ghost use Rattle.test_histories.specs.Drawn.Client09 as client09;
ghost use Rattle.test_histories.specs.Drawn.Server09 as server09;
ghost use Rattle.test_histories.specs.Drawn.Client10 as client10;
ghost use Rattle.test_histories.specs.Drawn.Server10 as server10;
ghost use Rattle.test_histories.specs.Drawn.Client11 as client11;

/// The answers of Client01.
pub fn client01()
    ensures answered { Answered client01.ends Client [] client01.turns }
{}

/// The answers of Server01.
pub fn server01()
    ensures answered { Answered server01.ends Server [] server01.turns }
{}

/// The answers of Client02.
pub fn client02()
    ensures answered { Answered client02.ends Client [] client02.turns }
{}

/// The answers of Server02.
pub fn server02()
    ensures answered { Answered server02.ends Server [] server02.turns }
{}

/// The answers of Client03.
pub fn client03()
    ensures answered { Answered client03.ends Client [] client03.turns }
{}

/// The answers of Server03.
pub fn server03()
    ensures answered { Answered server03.ends Server [] server03.turns }
{}

/// The answers of Client04.
pub fn client04()
    ensures answered { Answered client04.ends Client [] client04.turns }
{}

/// The answers of Server04.
pub fn server04()
    ensures answered { Answered server04.ends Server [] server04.turns }
{}

/// The answers of Client05.
pub fn client05()
    ensures answered { Answered client05.ends Client [] client05.turns }
{}

/// The answers of Server05.
pub fn server05()
    ensures answered { Answered server05.ends Server [] server05.turns }
{}

/// The answers of Client06.
pub fn client06()
    ensures answered { Answered client06.ends Client [] client06.turns }
{}

/// The answers of Server06.
pub fn server06()
    ensures answered { Answered server06.ends Server [] server06.turns }
{}

/// The answers of Client07.
pub fn client07()
    ensures answered { Answered client07.ends Client [] client07.turns }
{}

/// The answers of Server07.
pub fn server07()
    ensures answered { Answered server07.ends Server [] server07.turns }
{}

/// The answers of Client08.
pub fn client08()
    ensures answered { Answered client08.ends Client [] client08.turns }
{}

/// The answers of Server08.
pub fn server08()
    ensures answered { Answered server08.ends Server [] server08.turns }
{}

/// The answers of Client09.
pub fn client09()
    ensures answered { Answered client09.ends Client [] client09.turns }
{}

/// The answers of Server09.
pub fn server09()
    ensures answered { Answered server09.ends Server [] server09.turns }
{}

/// The answers of Client10.
pub fn client10()
    ensures answered { Answered client10.ends Client [] client10.turns }
{}

/// The answers of Server10.
pub fn server10()
    ensures answered { Answered server10.ends Server [] server10.turns }
{}

/// The answers of Client11.
pub fn client11()
    ensures answered { Answered client11.ends Client [] client11.turns }
{}
