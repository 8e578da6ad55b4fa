// Bytes put into a lent buffer at a position, as far as they fit. The caller keeps the position and counts on past the
// end of the buffer, so that the needed length is known.
ghost use Rattle.std.specs.Prelude.{◌≡◌, ◌∷◌, []};
ghost use Rattle.universal.specs.Overlay.{overlay};

// Puts one byte at a position, or nothing where the buffer ends before it.
pub fn put(out: &mut [u8], at: usize, byte: u8)
    ensures { out.new ≡ overlay out.old at (byte ∷ []) }
{
    if at < out.len() {
        out[at] = byte;
    }
}

// Puts a part of a source from a position on, as far as there is room.
pub fn put_part(out: &mut [u8], at: usize, bytes: &[u8])
    ensures { out.new ≡ overlay out.old at bytes.now }
{
    if out.len() <= at {
        return;
    }
    let room = out.len() - at;
    let end = bytes.len().min(room);
    // Most parts have a few bytes: `copy_from_slice` would call the C library's copy for each, at some twelve instructions more.
    for i in 0..end {
        out[at + i] = bytes[i];
    }
}
