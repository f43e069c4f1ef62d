// The bytes of a register's places: what stands in them, and which place is free.
#![tactic(auto)]

ghost use Rattle.std.specs.Prelude.{◌≡◌, [], ◌+◌, ◌<◌, length, get_or};
ghost use Rattle.spec_rule.specs.Kept.{says_stands};
ghost use Rattle.spec_places.specs.Storage.{lent, at_place, kept_at, are_places, client_from, length_at};
ghost use Rattle.spec_places.specs.Calls.{is_register};
ghost use Rattle.reg_bytes.specs.Placed.{Placed, free_place, client_lent};

// Functions of one place ask that the bytes are long enough and that the place is below 64 (Placed). Callers have asked has_places or
// is_register, and have the place from a loop or from lowest_free, or have compared it.

pub const PLACES: usize = 64;

pub const PLACE_BYTES: usize = 448;

// Readings of all access groups.
pub const READINGS: usize = 1344;

pub const LONGEST_NAME: usize = 60;

// Where a place's parts begin: the names; the number of the group that answers, and 1, or 0; the right's code; which rules stand.
pub const NAMES: usize = 5;

pub const NUMBER: usize = 185;

pub const RIGHT: usize = 186;

pub const FLAGS: usize = 187;

// A client, as a caller lends it or as it stands in a place.
#[derive(Clone, Copy)]
pub struct Client<'a> {
    pub group: &'a [u8],
    pub user: &'a [u8],
    pub host: &'a [u8],
    pub level: u32,
}

pub fn has_places(places: &[u8]) -> bool
    ensures { result ≡ are_places places.now }
{
    PLACES * PLACE_BYTES <= places.len()
}

pub fn is_register(places: &[u8], states: &[u8], values: &[f64]) -> bool
    ensures { result ≡ is_register (lent [] places.now states.now values.now) }
{
    has_places(places) && READINGS <= states.len() && READINGS <= values.len()
}

pub fn is_taken(places: &[u8], p: usize) -> bool
    requires { Placed places.now p }
    ensures { result ≡ says_stands (get_or places.now (at_place p) 0) }
{
    places[p * PLACE_BYTES] != 0
}

// The lowest free place.
pub fn lowest_free(places: &[u8]) -> Option<usize>
    requires { Placed places.now 0 }
    ensures { result ≡ free_place places.now }
{
    (0..PLACES).find(|&p| places[p * PLACE_BYTES] == 0)
}

// A length that a place has, at most that of a name.
fn length_at(places: &[u8], at: usize) -> usize
    requires { at < length places.now }
    ensures { result ≡ length_at places.now at }
{
    usize::from(places[at]).min(LONGEST_NAME)
}

// The client of a place, whether it is taken or free.
pub fn client_at(places: &[u8], p: usize) -> Client
    requires { Placed places.now p }
    ensures { client_lent result ≡ client_from places.now (at_place p) }
{
    let at = p * PLACE_BYTES;
    let group = at + NAMES;
    let user = group + length_at(places, at + 2);
    let host = user + length_at(places, at + 3);
    let end = host + length_at(places, at + 4);
    Client {
        group: &places[group..user],
        user: &places[user..host],
        host: &places[host..end],
        level: u32::from(places[at + 1]),
    }
}

// The number of the group that answers, and 1; or 0.
pub fn number(places: &[u8], p: usize) -> u8
    requires { Placed places.now p }
    ensures { result ≡ get_or places.now (kept_at p) 0 }
{
    places[p * PLACE_BYTES + NUMBER]
}

// The code of its right.
pub fn right(places: &[u8], p: usize) -> u8
    requires { Placed places.now p }
    ensures { result ≡ get_or places.now (kept_at p + 1) 0 }
{
    places[p * PLACE_BYTES + RIGHT]
}
