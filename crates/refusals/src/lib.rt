// Refusals: the rules of docs/RULES.md with their numbers, and the refusal of a fault, with its end.
#![tactic(auto)]

ghost use Rattle.std.specs.Prelude.{◌*◌, ◌≤◌, ◌<◌, ◌≡◌, IfOk, IsOk};
ghost use Rattle.nodes.specs.Faults.{no_fault};
ghost use Rattle.refusals.specs.Refusals.{rule_number, unread_as};
ghost use Rattle.refusals.specs.Says.{Tabled, EndsAt, Ended, Refuses};

use json_text::Unread;

// The rules that a text can break, with their numbers.
#[derive(Clone, Copy, PartialEq, Eq)]
pub enum Broken {
    TooLong = 1,
    NotUtf8 = 2,
    NotJson = 3,
    TooDeep = 4,
    UnpairedSurrogate = 5,
    RepeatedName = 6,
    WrongKind = 7,
    MissingMember = 8,
    TooManyObjects = 9,
    WrongWord = 10,
    NotCarried = 11,
    WrongShape = 12,
    OutOfRange = 13,
    NotPermitted = 14,
    UnknownLink = 15,
    NoParent = 16,
    OneSidedLink = 17,
    NoRoom = 18,
}

// The number of a rule.
#[tactic(auto, unfolding(crate::specs::Refusals::rule_number))]
impl From<Broken> for u32 {
    ghost from_gives = { λ rule n. n ≡ rule_number rule };

    fn from(rule: Broken) -> u32 {
        rule as u32
    }
}

// The rule of a number.
#[tactic(auto, unfolding(crate::specs::Refusals::rule_number))]
impl TryFrom<u32> for Broken {
    type Error = ();

    ghost try_from_gives = { λ n r. IfOk r (λ rule. rule_number rule ≡ n) × ((1 ≤ n) × (n ≤ 18) → IsOk r) };

    fn try_from(number: u32) -> Result<Broken, ()> {
        Ok(match number {
            1 => Broken::TooLong,
            2 => Broken::NotUtf8,
            3 => Broken::NotJson,
            4 => Broken::TooDeep,
            5 => Broken::UnpairedSurrogate,
            6 => Broken::RepeatedName,
            7 => Broken::WrongKind,
            8 => Broken::MissingMember,
            9 => Broken::TooManyObjects,
            10 => Broken::WrongWord,
            11 => Broken::NotCarried,
            12 => Broken::WrongShape,
            13 => Broken::OutOfRange,
            14 => Broken::NotPermitted,
            15 => Broken::UnknownLink,
            16 => Broken::NoParent,
            17 => Broken::OneSidedLink,
            18 => Broken::NoRoom,
            _ => return Err(()),
        })
    }
}

// A refusal: the broken rule, its place, and its end.
#[derive(Clone, Copy, PartialEq, Eq)]
pub struct Refusal {
    pub rule: Broken,
    pub place: usize,
    pub end: usize,
}

impl Refusal {
    // A refusal that ends at its place.
    pub fn at(rule: Broken, place: usize) -> Refusal
        ensures { result ≡ record { rule = rule; place = place; end = place } }
    {
        Refusal {
            rule: rule,
            place: place,
            end: place,
        }
    }
}

// The refusal of a text that is not read: by rule 3 or 4, or by rule 1.
#[tactic(auto, unfolding(crate::specs::Refusals::unread_as))]
impl From<Unread> for Refusal {
    ghost from_gives = { λ unread refusal. refusal ≡ unread_as unread };

    fn from(unread: Unread) -> Refusal {
        match unread {
            Unread::Bad(p) => Refusal::at(Broken::NotJson, p),
            Unread::Deep(p) => Refusal::at(Broken::TooDeep, p),
            Unread::Long | Unread::Short => Refusal::at(Broken::TooLong, 65535),
        }
    }
}

// The end of the value or name that begins at a place, or the place itself if none does: one pass over the node table,
// whose first n words are a tree's.
fn end_at(table: &[u32], n: usize, place: u32) -> u32
    requires { Tabled table.now n }
    ensures { EndsAt table.now place result }
{
    for i in (0..n).step_by(3) {
        if table[i] == place {
            return table[i + 1];
        }
    }
    place
}

// The end of a fault of the tree. That of rule 5 is its place.
fn end_of(table: &[u32], n: usize, fault: u32) -> u32
    requires { Tabled table.now n }
    ensures { Ended table.now fault result }
{
    let place = fault % 65536;
    if fault / 65536 < 6 {
        return place;
    }
    end_at(table, n, place)
}

// The refusal of a fault of the tree whose words are the first n of the table.
pub fn refuse_fault(table: &[u32], n: usize, fault: u32) -> Refusal
    requires { (Tabled table.now n) × (5 * 65536 ≤ fault) × (fault < no_fault) }
    ensures { Refuses table.now fault result }
{
    Refusal {
        rule: Broken::try_from(fault / 65536).unwrap(),
        place: (fault % 65536) as usize,
        end: end_of(table, n, fault) as usize,
    }
}
