// Bytes from one lent slice to another.
#![tactic(auto)]

ghost use Rattle.std.specs.Prelude.{◌≡◌, take, drop};
ghost use Rattle.std.proofs.lemmas.List.Edits.{sets};
ghost use Rattle.copying.specs.Copy.{Rooms};

// Copies `count` bytes of `from`, from `start` on, into `to`, from `place` on.
pub fn copy(from: &[u8], start: usize, count: usize, to: &mut [u8], place: usize)
    requires { Rooms from.now start count to.old place }
    ensures { to.new ≡ sets to.old place (take count (drop start from.now)) }
{
    to[place..place + count].copy_from_slice(&from[start..start + count]);
}
