//! Patterns of names.

ghost use Rattle.std.specs.Prelude.{◌≡◌, ◌∷◌};
ghost use Rattle.std.specs.Option.{option_copied};
ghost use Rattle.divrelca.specs.HostNames as spec;
ghost use Rattle.divrelca.specs.HostNames.{Meets};

// How a pattern and a name go together from their beginnings, as far as the first `*` of the pattern.
enum Meeting<'a> {
    // They end at once.
    Ends,
    // A byte of one of them has none in the other that it stands for.
    Differs,
    // What the pattern has after the star, and what the name has left there.
    Star(&'a [u8], &'a [u8]),
}

/// Tests whether a name is like a pattern, in which `*` stands for any bytes and `?` for any one byte. Upper and lower case are the same.
/// The time is at most in proportion to the pattern's length and to the square of the name's.
pub(crate) fn is_like(pattern: &[u8], name: &[u8]) -> bool
    ensures { result ≡ spec.is_like pattern.now name.now }
{
    match meet(pattern, name) {
        Meeting::Ends => true,
        Meeting::Differs => false,
        Meeting::Star(pattern, name) => has_end_like(pattern, name),
    }
}

// Tests whether a name ends like a pattern, which is what stands after a star. Once a star is met, the ones before it stand for as few
// bytes as they can: so the last one that was met is the one place to come back to.
#[tactic(auto, using(crate::proofs::Patterns::star_for_none, crate::proofs::Patterns::star_on, crate::proofs::Patterns::star_at_end))]
fn has_end_like(pattern: &[u8], name: &[u8]) -> bool
    ensures { result ≡ spec.is_like (42 ∷ pattern.now) name.now }
{
    let mut wanted = pattern;
    let mut left = name;
    loop {
        match meet(wanted, left) {
            Meeting::Ends => return true,
            Meeting::Star(pattern, name) => {
                wanted = pattern;
                left = name;
            }
            Meeting::Differs => match left.split_first() {
                Some((_, tail)) => left = tail,
                None => return false,
            },
        }
    }
}

// Goes over a pattern and a name up to the first star of the pattern.
#[tactic(auto, using(crate::proofs::Patterns::meetings))]
fn meet<'a>(pattern: &'a [u8], name: &'a [u8]) -> Meeting<'a>
    ensures { Meets pattern.now name.now result }
{
    let mut wanted = pattern;
    let mut left = name;
    while let Some((byte, rest)) = wanted.split_first() {
        if *byte == b'*' {
            return Meeting::Star(rest, left);
        }
        let Some(tail) = after_byte(*byte, left) else {
            return Meeting::Differs;
        };
        wanted = rest;
        left = tail;
    }
    if left.is_empty() {
        Meeting::Ends
    } else {
        Meeting::Differs
    }
}

// What a name has after its first byte, if a byte of a pattern other than `*` stands for this one.
fn after_byte(wanted: u8, name: &[u8]) -> Option<&[u8]>
    ensures { option_copied result ≡ spec.after_byte wanted name.now }
{
    let (first, tail) = name.split_first()?;
    if stands_for(wanted, *first) {
        Some(tail)
    } else {
        None
    }
}

// Tests whether a byte of a pattern other than `*` stands for a byte of a name.
fn stands_for(wanted: u8, byte: u8) -> bool
    ensures { result ≡ spec.stands_for wanted byte }
{
    wanted == b'?' || wanted.eq_ignore_ascii_case(&byte)
}
