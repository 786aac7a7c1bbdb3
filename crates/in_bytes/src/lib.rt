// Numbers in lent bytes, little endian.
#![tactic(auto)]

ghost use Rattle.std.specs.Prelude.{◌≡◌, ◌+◌, ◌<◌, ◌≤◌, ◌^◌, length};
ghost use Rattle.std.proofs.lemmas.List.Edits.{sets};
ghost use Rattle.in_bytes.specs.Numbers.{byte, number, bytes, Read};

// The byte at i.
pub fn byte(t: &[u8], i: usize) -> u64
    requires { i < length t.now }
    ensures { Read (byte t.now i) 256 result }
{
    t[i] as u64
}

// The number in the N bytes from i on, from the lowest byte up: bytes that are shifted and joined are compiled to one load.
#[tactic(auto, using(crate::proofs::Numbers::read_begins, crate::proofs::Numbers::read_ends))]
pub fn number<const N: usize>(t: &[u8], i: usize) -> u64
    requires fits { N ≤ 8 }
    requires room { i + N ≤ length t.now }
    ensures { Read (number N t.now i) (256 ^ N) result }
{
    let mut v = 0;
    for k in 0..N {
        v |= byte(t, i + k) << (8 * k);
    }
    v
}

// Writes the N lowest bytes of v from i on.
#[tactic(auto, using(crate::proofs::Numbers::up_begins, crate::proofs::Numbers::none_behind))]
pub fn put<const N: usize>(t: &mut [u8], i: usize, v: u64)
    requires { i + N ≤ length t.old }
    ensures { t.new ≡ sets t.old i (bytes N v) }
{
    let mut rest = v;
    for k in 0..N {
        t[i + k] = (rest % 256) as u8;
        rest /= 256;
    }
}
