//! Whether two pairs of a map have one key, whatever the order of its keys, found without memory: each pass over the map takes
//! the smallest keys above those of the pass before it into a window on the stack, where equal keys meet.
ghost use Rattle.std.specs.Prelude.{◌≡◌, ◌+◌, ◌-◌, ◌^◌, ◌<◌, ◌≤◌, ◌++◌, ◌∷◌, [], false, true, List, ℕ, length, take, insert, min, MatchBool, All};
ghost use Rattle.mcap_wire.specs.Layout.{text_bytes};
ghost use Rattle.mcap_wire.specs.Maps.{KeysDiffer};
ghost use Rattle.mcap_wire.specs.MapReading.{HasKey};
ghost use Rattle.mcap_wire.specs.PairBytes.{pairs_in, SpellsPairs, KeyTwice};
ghost use Rattle.mcap_wire.specs.KeyPasses.{TextThere, KeysGoUp, FindsKeyPlace, is_above, window_room, IsWindow, Sifts, PassShows};

use crate::pair_bytes::bytes_there;
use std::cmp::Ordering;

// How many keys a pass takes at most.
const ROOM: usize = 4096;

// The smallest keys of those that a pass has come to, by their places, in ascending order; and whether there are others.
#[derive(Drop)]
struct Window {
    places: [u32; ROOM],
    len: usize,
    passed: bool,
}

// What a pass came to: two pairs have one key; or none of those that it took, and these were the last; or they were all up to
// a key.
#[derive(Drop)]
enum Pass<'a> {
    Double,
    Last,
    Up(&'a [u8]),
}

// The text at a place.
fn key_there(bytes: &[u8], place: u32) -> &[u8]
    requires { TextThere bytes.now place }
    ensures { result.now ≡ text_bytes bytes.now place }
{
    bytes_there(bytes, place as usize).0
}

// Where a key stands among ascending ones: none of them is it, and it belongs at this index.
fn find(bytes: &[u8], places: &[u32], key: &[u8]) -> Option<usize>
    requires texts { All (TextThere bytes.now) places.now }
    requires order { KeysGoUp bytes.now places.now }
    ensures { FindsKeyPlace bytes.now places.now key.now result }
{
    let mut low = 0;
    let mut high = places.len();
    let mut probe = high.saturating_sub(1);
    while low < high {
        match key_there(bytes, places[probe]).cmp(key) {
            Ordering::Less => low = probe + 1,
            Ordering::Greater => high = probe,
            Ordering::Equal => return None,
        }
        probe = low + (high - low) / 2;
    }
    Some(low)
}

// Puts a place before others, of which the last goes where there is no room. Answers how many there are then.
fn put(places: &mut [u32; ROOM], len: usize, i: usize, place: u32) -> usize
    requires fits { len ≤ window_room }
    requires index { i ≤ len }
    requires room { i < window_room }
    ensures size { result ≡ min len (window_room - 1) + 1 }
    ensures places { length places.new ≡ window_room }
    ensures after { take result places.new ≡ insert (take (min len (window_room - 1)) places.old) i place }
{
    let kept = len.min(ROOM - 1);
    places.copy_within(i..kept, i + 1);
    places[i] = place;
    kept + 1
}

// Whether a key is above a bound, if there is one.
fn above(key: &[u8], bound: Option<&[u8]>) -> bool
    ensures { result ≡ is_above bound.entry key.now }
{
    match bound {
        Some(bound) => key > bound,
        None => true,
    }
}

// Takes a key into the window, if it is above the bound and not beyond the window. Says false where it is there already.
fn offer(bytes: &[u8], window: &mut Window, bound: Option<&[u8]>, at: usize, key: &[u8]) -> bool
    requires size { length bytes.now < 2 ^ 32 }
    requires text { TextThere bytes.now at }
    requires key { key.now ≡ text_bytes bytes.now at }
    requires window { IsWindow bytes.now window.old }
    ensures window { result ≡ true → IsWindow bytes.now window.new }
    ensures sifts { result ≡ true → (seen : List (List ℕ × List ℕ)) → (value : List ℕ)
        → Sifts bytes.now bound.entry seen window.old
        → Sifts bytes.now bound.entry (seen ++ (key.now, value) ∷ []) window.new }
    ensures double { result ≡ false → (seen : List (List ℕ × List ℕ)) → Sifts bytes.now bound.entry seen window.old
        → HasKey seen key.now }
{
    if !above(key, bound) {
        return true;
    }
    match find(bytes, &window.places[..window.len], key) {
        Some(i) => {
            window.passed = window.len == ROOM;
            if i < ROOM {
                window.len = put(&mut window.places, window.len, i, at as u32);
            }
            true
        }
        None => false,
    }
}

// Goes over all keys, and takes the smallest of those above a bound.
fn go_over<'a>(bytes: &'a [u8], count: usize, bound: Option<&[u8]>) -> Pass<'a>
    requires size { length bytes.now < 2 ^ 32 }
    requires pairs { SpellsPairs bytes.now count }
    ensures { PassShows (pairs_in count bytes.now) bound.entry result }
{
    let mut window = Window {
        places: [0; ROOM],
        len: 0,
        passed: false,
    };
    let mut at = 0;
    for i in 0..count {
        let (key, middle) = bytes_there(bytes, at);
        if !offer(bytes, &mut window, bound, at, key) {
            return Pass::Double;
        }
        let (_, end) = bytes_there(bytes, middle);
        at = end;
    }
    if window.passed {
        return Pass::Up(key_there(bytes, window.places[ROOM - 1]));
    }
    Pass::Last
}

// Whether two of the pairs have one key.
pub(crate) fn has_double(bytes: &[u8], count: usize) -> bool
    requires size { length bytes.now < 2 ^ 32 }
    requires pairs { SpellsPairs bytes.now count }
    ensures { MatchBool result (KeyTwice (pairs_in count bytes.now)) (KeysDiffer (pairs_in count bytes.now)) }
{
    let mut bound: Option<&[u8]> = None;
    loop {
        match go_over(bytes, count, bound) {
            Pass::Double => return true,
            Pass::Last => return false,
            Pass::Up(key) => bound = Some(key),
        }
    }
}
