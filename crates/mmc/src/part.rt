// A part of lent bytes, by its start and length: it stands for a slice beside the bytes that it belongs to. Document 01 asks for this form
// in commands and fields, which then go by value.
ghost use Rattle.std.specs.Prelude.{◌≡◌};
ghost use Rattle.mmc.specs.Part.{is_inside, part_of};

#[derive(Clone, Copy)]
pub struct Part {
    pub start: usize,
    pub len: usize,
}

impl Part {
    // True when the part lies inside the bytes.
    #[tactic(auto, unfolding(crate::specs::Part::is_inside))]
    pub fn is_inside(self, bytes: &[u8]) -> bool
        ensures { result ≡ is_inside bytes.now self }
    {
        self.start <= bytes.len() && self.len <= bytes.len() - self.start
    }

    // The bytes of the part, or none where it does not lie inside.
    #[tactic(auto, unfolding(crate::specs::Part::is_inside, crate::specs::Part::part_of))]
    pub fn of(self, bytes: &[u8]) -> &[u8]
        ensures { result.now ≡ part_of bytes.now self }
    {
        if !self.is_inside(bytes) {
            return &bytes[..0];
        }
        &bytes[self.start..self.start + self.len]
    }
}
