//! The words of products, put on a list that has room for them.

ghost use Rattle.std.specs.Prelude.{◌≡◌, ◌+◌, ◌<◌, ◌≤◌, length, drop};
ghost use Rattle.ic_flat.specs.Words.{forest, IsWhole, tree_words};
ghost use Rattle.ic_round.specs.Firing.{arguments};
ghost use Rattle.ic_flat_round.specs.inner.Room.{HasRoom, Appended};
ghost use Rattle.ic_flat_round.specs.inner.RuleWords.{raised_word, raised_words, product_words, against_words, interaction_words};
ghost use Rattle.ic_flat_rules.specs.Standing.{tree_at, IsTermAt};

use ic_flat::{Word, end_of_term};

/// So many words are copied at once. Fewer are copied sooner one by one.
const MANY: usize = 16;

/// Appends words.
#[inline(always)]
pub(crate) fn put_copied(words: &[Word], out: &mut Vec<Word>)
    requires { HasRoom out.old words.now }
    ensures { Appended out.old out.new words.now }
{
    if words.len() < MANY {
        put_each(words, out)
    } else {
        put_at_once(words, out)
    }
}

/// Appends words one by one.
#[inline(always)]
fn put_each(words: &[Word], out: &mut Vec<Word>)
    requires { HasRoom out.old words.now }
    ensures { Appended out.old out.new words.now }
{
    for word in words {
        out.push_reserved(*word);
    }
}

/// Appends words by one copy of them all.
#[inline(never)]
fn put_at_once(words: &[Word], out: &mut Vec<Word>)
    requires { HasRoom out.old words.now }
    ensures { Appended out.old out.new words.now }
{
    let Ok(()) = out.extend_from_slice(words) else {
        unreachable!()
    };
}

/// A word of a rule, with its name made higher by the base.
#[inline(always)]
fn raised(word: Word, base: u64) -> Word
    ensures { result ≡ raised_word base word }
{
    match word {
        Word::Name(name) => Word::Name(base.saturating_add(name)),
        Word::Agent(sym, arity) => Word::Agent(sym, arity),
    }
}

/// Appends the argument at a place, then the rule's term for it, and tells where both end.
#[inline(always)]
fn put_product(
    words: &[Word],
    place: usize,
    template: &[Word],
    from: usize,
    base: u64,
    out: &mut Vec<Word>,
) -> (usize, usize)
    requires whole { IsWhole words.now }
    requires whole_template { IsWhole template.now }
    requires there { place < length words.now }
    requires term_there { from < length template.now }
    requires room { HasRoom out.old
        (product_words base (tree_at words.now place) (tree_at template.now from)) }
    ensures argument { IsTermAt words.now place result.0 }
    ensures term { IsTermAt template.now from result.1 }
    ensures put { Appended out.old out.new
        (product_words base (tree_at words.now place) (tree_at template.now from)) }
{
    let end = put_argument(words, place, out);
    let until = put_template(template, from, base, out);
    (end, until)
}

/// Appends the argument at a place, and tells where it ends. Most arguments are names.
#[inline(always)]
fn put_argument(words: &[Word], place: usize, out: &mut Vec<Word>) -> usize
    requires whole { IsWhole words.now }
    requires there { place < length words.now }
    requires room { HasRoom out.old (tree_words (tree_at words.now place)) }
    ensures argument { IsTermAt words.now place result }
    ensures put { Appended out.old out.new (tree_words (tree_at words.now place)) }
{
    if words[place].arguments() == 0 {
        out.push_reserved(words[place]);
        return place + 1;
    }
    let end = end_of_term(words, place);
    put_copied(&words[place..end], out);
    end
}

/// Appends a rule's term at a place with its names made higher by the base, and tells where it ends.
#[inline(always)]
fn put_template(template: &[Word], from: usize, base: u64, out: &mut Vec<Word>) -> usize
    requires whole { IsWhole template.now }
    requires there { from < length template.now }
    requires room { HasRoom out.old (raised_words base (tree_at template.now from)) }
    ensures term { IsTermAt template.now from result }
    ensures put { Appended out.old out.new (raised_words base (tree_at template.now from)) }
{
    let mut due = 1;
    let mut until = from;
    while due > 0 {
        let word = template[until];
        due = due - 1 + word.arguments();
        out.push_reserved(raised(word, base));
        until += 1;
    }
    until
}

/// Appends so many arguments of an agent, the first of them at a place, each followed by the rule's term for it, and
/// tells where these terms end.
#[inline(always)]
fn put_products(
    words: &[Word],
    place: usize,
    count: usize,
    template: &[Word],
    from: usize,
    base: u64,
    out: &mut Vec<Word>,
) -> usize
    requires whole { IsWhole words.now }
    requires whole_template { IsWhole template.now }
    requires there { count ≤ length (forest (drop place words.now)) }
    requires terms_there { count ≤ length (forest (drop from template.now)) }
    requires room { HasRoom out.old (against_words base count
        (forest (drop place words.now)) (forest (drop from template.now))) }
    ensures rest { forest (drop result template.now) ≡ drop count (forest (drop from template.now)) }
    ensures put { Appended out.old out.new (against_words base count
        (forest (drop place words.now)) (forest (drop from template.now))) }
{
    let mut due = count;
    let mut place = place;
    let mut from = from;
    while due > 0 {
        let (end, until) = put_product(words, place, template, from, base, out);
        place = end;
        from = until;
        due -= 1;
    }
    from
}

/// Appends the arguments of two agents, each followed by a rule's term for it, where these are the words of the rule,
/// and tells how many arguments they are.
pub(crate) fn put_interaction(
    words: &[Word],
    left: usize,
    right: usize,
    template: &[Word],
    base: u64,
    out: &mut Vec<Word>,
) -> usize
    requires whole { IsWhole words.now }
    requires whole_template { IsWhole template.now }
    requires there { left < length words.now }
    requires right_there { right < length words.now }
    requires terms_there { length (arguments (tree_at words.now left))
        + length (arguments (tree_at words.now right)) ≤ length (forest template.now) }
    requires room { HasRoom out.old (interaction_words base (arguments (tree_at words.now left))
        (arguments (tree_at words.now right)) (forest template.now)) }
    ensures count { result ≡ length (arguments (tree_at words.now left))
        + length (arguments (tree_at words.now right)) }
    ensures put { Appended out.old out.new (interaction_words base (arguments (tree_at words.now left))
        (arguments (tree_at words.now right)) (forest template.now)) }
{
    let left_count = words[left].arguments();
    let right_count = words[right].arguments();
    let from = put_products(words, left + 1, left_count, template, 0, base, out);
    put_products(words, right + 1, right_count, template, from, base, out);
    left_count + right_count
}
