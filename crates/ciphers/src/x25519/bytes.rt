//! Elements as 32 bytes (RFC 7748 section 5), and what their numbers are.

ghost use Rattle.std.specs.Prelude.{◌≡◌, ◌<◌, ◌≤◌, ◌+◌, ◌*◌, ◌/◌, ◌%◌, ◌^◌, length, nat_eq, nat_lt};
ghost use Rattle.ciphers.specs.X25519.Bytes.{bit_of, bytes_of, element_of, excess, frozen, le_bytes, reduced, tightened, value, word_of};
ghost use Rattle.ciphers.specs.X25519.Field.{AreBelow, IsTight, number, prime, residue};

use crate::x25519::field::Element;

// 2^51.
const LIMB: u64 = 0x8_0000_0000_0000;

/// The bit of this place in the number that the bytes spell, the lowest byte first.
pub fn bit_of(bytes: &[u8], place: usize) -> u64
    requires { place < 8 * length bytes.now }
    ensures value { result ≡ bit_of bytes.now place }
    ensures bit { result ≤ 1 }
{
    ((bytes[place / 8] as u64) >> (place % 8)) % 2
}

/// The word that eight bytes from this place on spell, the lowest byte first.
pub fn word_of(bytes: &[u8; 32], at: usize) -> u64
    requires { at < 25 }
    ensures { result ≡ word_of bytes.now at }
{
    u64::from_le_bytes([
        bytes[at],
        bytes[at + 1],
        bytes[at + 2],
        bytes[at + 3],
        bytes[at + 4],
        bytes[at + 5],
        bytes[at + 6],
        bytes[at + 7],
    ])
}

/// The element that the 255 low bits of 32 bytes are, the lowest byte first. The highest bit is not read, and a number from the prime on is
/// taken as it is.
#[tactic(auto, unfolding(crate::specs::X25519::Bytes::element_of), using(crate::proofs::X25519Lemmas::Spelling::element_number))]
pub fn element_of(bytes: &[u8; 32]) -> Element
    ensures value { result ≡ element_of bytes.now }
    ensures number { number result ≡ value bytes.now % 2 ^ 255 }
    ensures tight { IsTight result }
{
    let v = word_of(bytes, 0);
    let w = word_of(bytes, 8);
    let x = word_of(bytes, 16);
    let y = word_of(bytes, 24);
    Element {
        a: v % LIMB,
        b: ((v >> 51) | (w << 13)) % LIMB,
        c: ((w >> 38) | (x << 26)) % LIMB,
        d: ((x >> 25) | (y << 39)) % LIMB,
        e: (y >> 12) % LIMB,
    }
}

// What each limb has from 2^51 on goes to the next limb.
fn tightened(x: Element) -> Element
    requires { IsTight x }
    ensures value { result ≡ tightened x }
    ensures tight { IsTight result }
{
    let b = x.b + x.a / LIMB;
    let c = x.c + b / LIMB;
    let d = x.d + c / LIMB;
    let e = x.e + d / LIMB;
    Element {
        a: x.a % LIMB + e / LIMB * 19,
        b: b % LIMB,
        c: c % LIMB,
        d: d % LIMB,
        e: e % LIMB,
    }
}

// How often the prime is in the number.
#[tactic(auto, using(crate::proofs::X25519Lemmas::Modulo::excess_number))]
fn excess(t: Element) -> u64
    requires { IsTight t }
    ensures value { result ≡ excess t }
    ensures number { result ≡ (number t + 19) / 2 ^ 255 }
    ensures few { result ≤ 2 }
{
    let q = (t.a + 19) / LIMB;
    let q = (t.b + q) / LIMB;
    let q = (t.c + q) / LIMB;
    let q = (t.d + q) / LIMB;
    (t.e + q) / LIMB
}

// The number less so many times the prime, whose bits below 2^255 are those with 19 added so often.
fn reduced(t: Element, q: u64) -> Element
    requires t { IsTight t }
    requires q { q ≤ 2 }
    ensures value { result ≡ reduced t q }
    ensures limbs { AreBelow (2 ^ 51) result }
{
    let a = t.a + q * 19;
    let b = t.b + a / LIMB;
    let c = t.c + b / LIMB;
    let d = t.d + c / LIMB;
    let e = t.e + d / LIMB;
    Element {
        a: a % LIMB,
        b: b % LIMB,
        c: c % LIMB,
        d: d % LIMB,
        e: e % LIMB,
    }
}

// The number below the prime.
#[tactic(auto, unfolding(crate::specs::X25519::Bytes::frozen), using(crate::proofs::X25519Lemmas::Modulo::frozen_number))]
fn frozen(x: Element) -> Element
    requires { IsTight x }
    ensures value { result ≡ frozen x }
    ensures number { number result ≡ residue x }
    ensures limbs { AreBelow (2 ^ 51) result }
{
    let t = tightened(tightened(x));
    reduced(t, excess(t))
}

/// The bytes of an element, the lowest byte first: of the number below the prime.
#[tactic(auto, unfolding(crate::specs::X25519::Bytes::bytes_of), using(crate::proofs::X25519Lemmas::Spelling::bytes_of_residue))]
pub fn bytes_of(x: Element) -> [u8; 32]
    requires { IsTight x }
    ensures value { result ≡ bytes_of x }
    ensures residue { result ≡ le_bytes (residue x) }
{
    let t = frozen(x);
    let v = (t.a | (t.b << 51)).to_le_bytes();
    let w = ((t.b >> 13) | (t.c << 38)).to_le_bytes();
    let x = ((t.c >> 26) | (t.d << 25)).to_le_bytes();
    let y = ((t.d >> 39) | (t.e << 12)).to_le_bytes();
    [
        v[0], v[1], v[2], v[3], v[4], v[5], v[6], v[7], w[0], w[1], w[2], w[3], w[4], w[5], w[6],
        w[7], x[0], x[1], x[2], x[3], x[4], x[5], x[6], x[7], y[0], y[1], y[2], y[3], y[4], y[5],
        y[6], y[7],
    ]
}

/// Whether two elements stand for the same number.
#[tactic(auto, using(crate::proofs::X25519Lemmas::Tests::same_elements))]
pub fn is_same(x: Element, y: Element) -> bool
    requires x { IsTight x }
    requires y { IsTight y }
    ensures { result ≡ nat_eq (residue x) (residue y) }
{
    bytes_of(x) == bytes_of(y)
}

/// The lowest bit of the number below the prime.
#[tactic(auto, using(crate::proofs::X25519Lemmas::Tests::low_bit))]
pub fn parity(x: Element) -> u8
    requires { IsTight x }
    ensures value { result ≡ residue x % 2 }
    ensures bit { result ≤ 1 }
{
    bytes_of(x)[0] % 2
}

/// Whether a number of 255 bits is below the prime.
pub fn is_below_prime(x: Element) -> bool
    requires limbs { IsTight x }
    requires number { number x < 2 ^ 255 }
    ensures { result ≡ nat_lt (number x) prime }
{
    excess(x) == 0
}
