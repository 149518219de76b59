//! The waiting line: the kinds of frames that wait, first to last. 01, "The waiting line".

#![tactic(auto)]

ghost use Rattle.std.specs.Prelude.{◌≡◌, ◌||◌, cond, [], ◌∷◌, eqb, ℕ};
ghost use Rattle.cases.specs.Padded.{pad};
ghost use Rattle.waiting.specs.Line.{places, order, has, first as first_of};
ghost use Rattle.waiting.specs.Places.{join_in, withdraw_in, taken_in, waiting, Holds};
ghost use Rattle.waiting.specs.Calls.{if_due, joins_in, withdraws_in, those_due, flagged};
ghost use Rattle.waiting.specs.Laws.{Lines, Laws, InTurn};
ghost use Rattle.waiting.specs.Plain.{BySlotN, Example};
ghost use Rattle.waiting.specs.Worked.{Worked};

// The kinds. Several that join in one call join in the order of these numbers. They are no enum, since 01 wants an array of kind numbers, and
// what C lends may hold no enum.
pub const EMERGENCY: u8 = 1;

pub const SDO_REPLY: u8 = 2;

pub const HEARTBEAT: u8 = 3;

pub const TPDO1: u8 = 4;

pub const TPDO2: u8 = 5;

// An empty place. Empty places stand behind the waiting kinds only.
pub const EMPTY: u8 = 0;

pub const PLACES: usize = 5;

pub type Line = [u8; PLACES];

// A line in which nothing waits.
pub fn none() -> Line
    ensures { result ≡ pad places [] }
{
    [EMPTY; PLACES]
}

pub fn waits(line: Line, kind: u8) -> bool
    ensures { result ≡ has kind line }
{
    for place in line {
        if place == kind {
            return true;
        }
    }
    false
}

// Place by place: with a search for the place, `sync-scaled` and `read-6200` of the benchmark miss their bar of speed, which they meet so.
pub fn join(line: Line, kind: u8) -> Line
    ensures { result ≡ join_in line kind }
{
    let [one, two, three, four, five] = line;
    if takes(one, kind) {
        return [kind, two, three, four, five];
    }
    if takes(two, kind) {
        return [one, kind, three, four, five];
    }
    if takes(three, kind) {
        return [one, two, kind, four, five];
    }
    if takes(four, kind) {
        return [one, two, three, kind, five];
    }
    if takes(five, kind) {
        return [one, two, three, four, kind];
    }
    line
}

// An empty place takes a kind; one that waits already keeps its place.
fn takes(place: u8, kind: u8) -> bool
    ensures { result ≡ (eqb place 0 || eqb place kind) }
{
    (place == EMPTY) | (place == kind)
}

// From the last place on, over the kinds and not over references, of which the kit lays an Option out for pointers of 64 bits only.
pub fn withdraw(line: Line, kind: u8) -> Line
    ensures { result ≡ withdraw_in line kind }
{
    let [one, two, three, four, five] = line;
    let mut left = none();
    for place in [five, four, three, two, one] {
        if place != kind {
            left = [place, left[0], left[1], left[2], left[3]];
        }
    }
    left
}

// The kind that a slot sends, 0 if none waits.
pub fn first(line: Line) -> u8
    ensures { result ≡ first_of line }
{
    line[0]
}

// The line once the first is sent.
pub fn taken(line: Line) -> Line
    requires { Holds places line (waiting line) }
    ensures { result ≡ taken_in line }
{
    [line[1], line[2], line[3], line[4], EMPTY]
}

// This function and the next three differ in what they call, not in a type: a closure for it would need a contract that chains its calls.
pub fn join_if(line: Line, due: bool, kind: u8) -> Line
    ensures { result ≡ joins_in line (if_due due kind) }
{
    if due { join(line, kind) } else { line }
}

pub fn withdraw_if(line: Line, due: bool, kind: u8) -> Line
    ensures { result ≡ withdraws_in line (if_due due kind) }
{
    if due { withdraw(line, kind) } else { line }
}

// A flag for each kind, in the order of the kinds' numbers.
pub type Flags = [bool; PLACES];

// Those that are flagged join, in their order.
pub fn join_those(line: Line, comes: Flags) -> Line
    ensures { result ≡ joins_in line (those_due (flagged comes) order) }
{
    let joined = join_if(line, comes[0], EMERGENCY);
    let joined = join_if(joined, comes[1], SDO_REPLY);
    let joined = join_if(joined, comes[2], HEARTBEAT);
    let joined = join_if(joined, comes[3], TPDO1);
    join_if(joined, comes[4], TPDO2)
}

pub fn withdraw_those(line: Line, goes: Flags) -> Line
    ensures { result ≡ withdraws_in line (those_due (flagged goes) order) }
{
    let left = withdraw_if(line, goes[0], EMERGENCY);
    let left = withdraw_if(left, goes[1], SDO_REPLY);
    let left = withdraw_if(left, goes[2], HEARTBEAT);
    let left = withdraw_if(left, goes[3], TPDO1);
    withdraw_if(left, goes[4], TPDO2)
}

// This function does nothing. It ensures the statements of the crate, so the crate is proved only if they are.
fn statements()
    ensures { Lines × ((n : ℕ) → Laws n) × InTurn × ((n : ℕ) → BySlotN n) × Example × Worked }
{}
