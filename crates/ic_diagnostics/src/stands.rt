//! Where in a text a place stands, by what stands before it.

/// Where a place stands that is in no agent's parentheses.
#[derive(Clone, Copy, PartialEq, Eq)]
pub(crate) enum Stand {
    /// Before the rules and the configuration.
    Front,
    /// In a rule, before `><`.
    First,
    /// In a rule, after `><`.
    Second,
    /// After the rules.
    Rules,
    /// In the interface.
    Interface,
    /// In an equation, before `=`.
    Left,
    /// In an equation, after `=`.
    Right,
    /// After the configuration.
    Over,
}

/// Where a place stands, and in how many agents' parentheses.
#[derive(Clone, Copy, PartialEq, Eq)]
pub(crate) struct Spot {
    pub stand: Stand,
    pub depth: usize,
}

impl Stand {
    /// Where a place stands after a byte, where it stood there before it: `<` ends `><` or begins a configuration, `>`
    /// begins `><` or ends one, and after a comma another equation begins.
    fn after(self, byte: u8) -> Stand {
        match (byte, self) {
            (b'{' | b';', _) => Stand::First,
            (b'}', _) => Stand::Rules,
            (b'|', _) | (b',', Stand::Right) => Stand::Left,
            (b'=', _) => Stand::Right,
            (b'<', Stand::Second) | (b'>', Stand::First) => Stand::Second,
            (b'<', _) => Stand::Interface,
            (b'>', _) => Stand::Over,
            _ => self,
        }
    }
}

impl Spot {
    /// The spot of a place, where these bytes stand before it.
    pub fn of(front: &[u8]) -> Spot {
        let mut spot = Spot {
            stand: Stand::Front,
            depth: 0,
        };
        for byte in front {
            spot = spot.after(*byte);
        }
        spot
    }

    /// The spot after a byte.
    fn after(self, byte: u8) -> Spot {
        let Spot { stand, depth } = self;
        match (byte, depth) {
            (b'(', _) => Spot {
                stand,
                depth: depth.saturating_add(1),
            },
            (b')', _) => Spot {
                stand,
                depth: depth.saturating_sub(1),
            },
            (_, 0) => Spot {
                stand: stand.after(byte),
                depth,
            },
            _ => self,
        }
    }

    /// Whether a place stands there, in no agent's parentheses.
    pub fn is_at(self, stand: Stand) -> bool {
        self.depth == 0 && self.stand == stand
    }
}
