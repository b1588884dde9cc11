//! The table of a language: flat arrays, written by a script and tested by `is_ll1`. The sets are the FIRST and FOLLOW sets of
//! LL(1) parsing, as in any text on compilers.
ghost use Rattle.std.specs.Prelude.{◌≡◌, ◌<◌, ◌≤◌, ◌^◌, ◌↔◌, IsTrue, length};
ghost use Rattle.std.specs.Int.{bit_at};
ghost use Rattle.pv_ll.specs.Table.{rule, part, body_of};

/// A symbol of a body: a token by its kind, or a name by its number.
#[derive(Clone, Copy, Debug, PartialEq, Eq)]
pub enum Symbol {
    /// A token of this kind.
    Token(u8),
    /// What the name with this number derives.
    Name(u8),
}

/// One alternative of a name. Its number is its place in the table.
#[derive(Clone, Copy, Debug)]
pub struct Alternative {
    /// The name whose alternative this is.
    pub name: u8,
    /// The lookahead: bit `t` is set where a next token of kind `t` takes this alternative.
    pub when: u128,
    /// Where its symbols begin in the table.
    pub from: u16,
    /// Where its symbols end.
    pub to: u16,
}

/// What the table knows of one name. Its number is its place in the table.
#[derive(Clone, Copy, Debug)]
pub struct Rule {
    /// Whether the name may derive no token at all.
    pub nullable: bool,
    /// The kinds with which what it derives may begin, as bits.
    pub first: u128,
    /// The kinds that may come behind it, as bits. The end of the text counts as one more kind.
    pub follow: u128,
    /// More than the names that can stand in front of the first token of any of its bodies weigh together.
    pub weight: u16,
    /// Where its alternatives begin in the table.
    pub from: u16,
    /// Where its alternatives end.
    pub to: u16,
}

/// A language: its grammar, with what an LL(1) recognizer has to know of it.
#[derive(Clone, Copy, Debug)]
pub struct Language {
    /// By name.
    pub rules: &'static [Rule],
    /// Those of a name stand together.
    pub alternatives: &'static [Alternative],
    /// The symbols of all bodies.
    pub symbols: &'static [Symbol],
    /// The name that a whole text has to be.
    pub start: u8,
    /// The number of token kinds, at most 127. The number itself stands for the end of the text.
    pub kinds: u8,
}

/// What stands for a name that a table doesn't have: a name with no alternative.
const NO_RULE: Rule = Rule {
    nullable: false,
    first: 0,
    follow: 0,
    weight: 0,
    from: 0,
    to: 0,
};

/// What the table knows of a name.
pub(crate) fn rule_of(language: &Language, name: u8) -> Rule
    ensures { result ≡ rule language.now name }
{
    language
        .rules
        .get(name as usize)
        .copied()
        .unwrap_or(NO_RULE)
}

/// Whether a mask has a kind.
pub(crate) fn contains(mask: u128, kind: u8) -> bool
    ensures { IsTrue result ↔ (bit_at mask kind ≡ 1) }
{
    kind < 128 && mask >> kind & 1 == 1
}

/// The items from one place up to another, as far as there are any.
fn part<T>(items: &[T], from: usize, to: usize) -> &[T]
    ensures items { result.now ≡ part items.now from to }
    ensures short { length result.now ≤ to }
{
    let front = if to < items.len() {
        &items[..to]
    } else {
        items
    };
    if from < front.len() {
        &front[from..]
    } else {
        &[]
    }
}

/// The symbols of an alternative.
pub(crate) fn body<'a>(language: &'a Language, alternative: &Alternative) -> &'a [Symbol]
    ensures symbols { result.now ≡ body_of language.now alternative.now }
    ensures short { length result.now < 2 ^ 16 }
{
    part(
        language.symbols,
        alternative.from as usize,
        alternative.to as usize,
    )
}
