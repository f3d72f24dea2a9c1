//! Words of terms in prefix order, and how many terms they write.

ghost use Rattle.std.specs.Prelude.{◌≡◌, length, SomeIff};
ghost use Rattle.std.specs.Cmp.{partial_equiv_from_equiv};
ghost use Rattle.ic_flat.specs.Words.{arguments, forest, IsWhole, word_eq};
ghost use Rattle.ic_flat.specs.lemmas.WordTests.{word_eq-equivalence};

/// A word of a term in prefix order: a name, or an agent's symbol with how many arguments it has.
#[derive(Clone, Copy)]
pub enum Word {
    Name(u64),
    Agent(u32, usize),
}

impl Word {
    /// How many of the terms after it the word takes.
    pub fn arguments(self) -> usize
        ensures { result ≡ arguments self }
    {
        match self {
            Word::Name(_) => 0,
            Word::Agent(_, arity) => arity,
        }
    }
}

impl PartialEq for Word {
    ghost eq = { word_eq };

    ghost laws = { partial_equiv_from_equiv word_eq-equivalence };

    fn eq(&self, other: &Word) -> bool {
        match *self {
            Word::Name(left) => match *other {
                Word::Name(right) => left == right,
                Word::Agent(_, _) => false,
            },
            Word::Agent(left, left_arity) => match *other {
                Word::Agent(right, right_arity) => left == right && left_arity == right_arity,
                Word::Name(_) => false,
            },
        }
    }
}

impl Eq for Word {
    ghost laws = { word_eq-equivalence };
}

/// How many terms the words write, or none where an agent lacks arguments. Looks at each word once.
pub fn terms_in(words: &[Word]) -> Option<usize>
    ensures { SomeIff result (IsWhole words.now) (length (forest words.now)) }
{
    let mut terms = 0;
    for i in (0..words.len()).rev() {
        let taken = words[i].arguments();
        if taken > terms {
            return None;
        }
        terms = terms - taken + 1;
    }
    Some(terms)
}
