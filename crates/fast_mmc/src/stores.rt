// The bytes of a command stored where all of them fit: none is checked for room by itself, and the compiler puts several in one store.
ghost use Rattle.std.specs.Prelude.{◌≡◌, ◌∷◌, [], get_or, length, ◌+◌, ◌≤◌};
ghost use Rattle.universal.specs.Overlay.{overlay};

use mmc::command::LOCATE;

// A Locate to a time: 44H, its count, the sub-command, and the five bytes of the time code.
pub(crate) fn store_locate(out: &mut [u8], at: usize, bytes: [u8; 5])
    requires { (at ≤ 40000) × (at + 8 ≤ length out.now) }
    ensures { out.new ≡ overlay out.old at (68 ∷ 6 ∷ 1 ∷ get_or bytes 0 0 ∷ get_or bytes 1 0 ∷ get_or bytes 2 0 ∷ get_or bytes 3 0 ∷ get_or bytes 4 0 ∷ []) }
{
    let [hr, mn, sc, fr, ff] = bytes;
    out[at] = LOCATE;
    out[at + 1] = 6;
    out[at + 2] = 1;
    out[at + 3] = hr;
    out[at + 4] = mn;
    out[at + 5] = sc;
    out[at + 6] = fr;
    out[at + 7] = ff;
}

// A Locate to a register, or a Move.
pub(crate) fn store_four(out: &mut [u8], at: usize, bytes: [u8; 4])
    requires { (at ≤ 40000) × (at + 4 ≤ length out.now) }
    ensures { out.new ≡ overlay out.old at (get_or bytes 0 0 ∷ get_or bytes 1 0 ∷ get_or bytes 2 0 ∷ get_or bytes 3 0 ∷ []) }
{
    out[at] = bytes[0];
    out[at + 1] = bytes[1];
    out[at + 2] = bytes[2];
    out[at + 3] = bytes[3];
}
