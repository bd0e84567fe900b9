// What an object of a kind is made of: how many words, and which of them are references.
#![tactic(auto)]

ghost use Rattle.std.specs.Prelude.{◌≡◌};
ghost use Rattle.kinds.specs.Maps.{refers, fits, bits_set, Next};

// Word j, counted from 0, is a reference if bit j of the map is set, and a number otherwise.
#[derive(Clone, Copy, PartialEq, Eq, Default, Debug)]
pub struct Kind {
    pub size: u8,
    pub map: u32,
}

impl Kind {
    // 1 to 32 words, and no bit of the map past them.
    pub fn is_legal(self) -> bool
        ensures { result ≡ fits self }
    {
        self.size >= 1 && self.size <= 32 && (self.map as u64) < 1u64 << self.size
    }

    // How many bits of the map are set: in a legal kind, how many words are references.
    pub fn references(self) -> u32
        ensures { result ≡ bits_set self.map 32 }
    {
        self.map.count_ones()
    }

    // The first set bit of the map from a word on, 32 where there is none.
    pub fn next_reference(self, from: u16) -> u16
        ensures { Next self.map from result }
    {
        if from >= 32 {
            return 32;
        }
        let skipped = (self.map >> from).trailing_zeros() as u16;
        if skipped < 32 - from {
            from + skipped
        } else {
            32
        }
    }

    // Whether a word is a reference.
    pub fn refers(self, word: u16) -> bool
        ensures { result ≡ refers self word }
    {
        word < self.size as u16 && word < 32 && self.next_reference(word) == word
    }
}
