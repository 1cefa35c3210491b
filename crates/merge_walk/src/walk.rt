//! The walk through time.
ghost use Rattle.std.specs.Prelude.{◌≡◌, ◌<◌, ◌∷◌, [], ℕ, List, Option, map, length, IfOk, IsPermutation};
ghost use Rattle.merge_walk.specs.Parts.{IsPartLoaded};
ghost use Rattle.merge_walk.specs.Windows.{loaded_in};
ghost use Rattle.merge_walk.specs.Stores.{files_of, StoresFit, ReadsPiece};
ghost use Rattle.merge_walk.specs.Walks.{LoadsPiece};

use crate::cursors::{Cursor, changed, comes_before, cursor_of, first_due};
use crate::pieces::{Piece, put_in_order};
use crate::turns::{Turn, WalkRefused};
use crate::{Loadable, Window};
use mcap_io::Store;
use mcap_model::{Inner, ReadingRefused};
use mcap_scan::first_record;
use std::alloc::Global;

/// Gives the messages of pieces one after the other. A piece is loaded when its first message may be next, and let go behind
/// its last.
#[derive(Drop)]
pub struct Walk {
    alloc: Global,
    pieces: Vec<Piece>,
    next: usize,
    cursors: Vec<Cursor>,
    window: Window,
    last: usize,
    peak: u64,
}

// Loads the bytes of a piece.
fn load_piece<T: Store>(
    window: &mut Window,
    stores: &mut Vec<T>,
    piece: Piece,
) -> Result<(), WalkRefused>
    requires fits { StoresFit (map (λ s. T.state s) stores.old.items) (piece ∷ []) }
    requires unloaded { IsPartLoaded (loaded_in window.old) piece.input piece.span.at → ⊥ }
    ensures loads { LoadsPiece (files_of (map (λ s. T.state s) stores.old.items)) piece (loaded_in window.old)
        (loaded_in window.new) result }
    ensures stores { ReadsPiece (map (λ s. T.state s) stores.old.items) (map (λ s. T.state s) stores.new.items) piece
        result }
{
    let at = Loadable {
        input: piece.input,
        offset: piece.span.at,
        length: piece.span.length,
    };
    match window.load(&mut stores[piece.input as usize], at) {
        Ok(()) => return Ok(()),
        Err(why) => return Err(WalkRefused::Refused {
            input: piece.input,
            why,
        }),
    }
}

impl Walk {
    ghost use Rattle.mcap_model.specs.Places.{Has};
    ghost use Rattle.mcap_model.specs.Walk.{inner_top};
    ghost use Rattle.merge_walk.specs.Pieces.{InputBytes};
    ghost use Rattle.merge_walk.specs.Stores.{LeavesStores};
    ghost use Rattle.merge_walk.specs.Walks.{pieces_in, peak_of, turns_in, Text, HoldsText, IsMessageAt, WalkStands, StandsBehindSome, AllLeft, NextIsDue, StepsOn, LetsPieceGo, FindsOrRefuses, GivesNext, AdvancesOrRefuses};

    /// A walk through all messages of these pieces, of which nothing was given yet.
    pub fn new(alloc: Global, pieces: Vec<Piece>) -> Walk
        ensures pieces { IsPermutation pieces.items (pieces_in result) }
        ensures stands { (files : InputBytes) → WalkStands files result [] [] }
    {
        let mut pieces = pieces;
        put_in_order(&mut pieces);
        Walk {
            alloc,
            pieces,
            next: 0,
            cursors: Vec::new(alloc),
            window: Window::new(alloc),
            last: 0,
            peak: 0,
        }
    }

    /// The most bytes that were loaded at one time, so far.
    pub fn peak(&self) -> u64
        ensures { result ≡ peak_of self.now }
    {
        self.peak
    }

    /// The record of a message whose piece is loaded, as is that of the turn which was given last. Its offset is the place in
    /// the piece.
    pub fn message(&self, turn: &Turn) -> Inner<'_>
        requires { (x : Text) × HoldsText self.now x × Has (turns_in x) turn.now }
        ensures message { (x : Text) → HoldsText self.now x → Has (turns_in x) turn.now
            → IsMessageAt x turn.now (inner_top result) }
        ensures offset { result.offset ≡ turn.now.inner }
    {
        let bytes = self.window.bytes(turn.input, turn.at);
        match first_record(&bytes[turn.inner as usize..]) {
            Some(inner) => return Inner {
                op: inner.op,
                offset: turn.inner,
                content: inner.content,
            },
            None => unreachable!(),
        }
    }

    // Loads the next piece.
    fn load_next<T: Store>(&mut self, stores: &mut Vec<T>) -> Result<(), WalkRefused>
        requires within { self.old.next < length self.old.pieces.items }
        requires stands { StandsBehindSome (files_of (map (λ s. T.state s) stores.old.items)) self.old }
        requires fits { StoresFit (map (λ s. T.state s) stores.old.items) self.old.pieces.items }
        ensures loads { StepsOn (files_of (map (λ s. T.state s) stores.old.items)) self.old self.new result }
        ensures stores { LeavesStores (map (λ s. T.state s) stores.old.items) (map (λ s. T.state s) stores.new.items)
            self.old self.new result }
    {
        let piece = self.pieces[self.next];
        if self.window.is_loaded(piece.input, piece.span.at) {
            return Err(changed(&piece));
        }
        match load_piece(&mut self.window, stores, piece) {
            Ok(()) => {}
            Err(why) => return Err(why),
        }
        let bytes = self.window.bytes(piece.input, piece.span.at);
        let cursor = match cursor_of(self.alloc, piece, bytes) {
            Ok(cursor) => cursor,
            Err(why) => return Err(why),
        };
        match self.cursors.push(cursor) {
            Ok(()) => {}
            Err(_) => return Err(WalkRefused::Refused {
                input: piece.input,
                why: ReadingRefused::Memory,
            }),
        }
        self.peak = self.peak.max(self.window.held());
        self.next += 1;
        return Ok(());
    }

    // Lets the piece go whose message was given last, if it was the piece's last.
    fn let_go(&mut self)
        requires { (files : InputBytes) × StandsBehindSome files self.old }
        ensures { LetsPieceGo self.old self.new }
    {
        if self.last >= self.cursors.len() {
            return;
        }
        if !self.cursors[self.last].is_over() {
            return;
        }
        let cursor = self.cursors.remove(self.last);
        self.window
            .release(cursor.piece.input, cursor.piece.span.at);
    }

    // Loads the pieces that may have the next message, and says which has it.
    fn load_due<T: Store>(&mut self, stores: &mut Vec<T>) -> Result<Option<usize>, WalkRefused>
        requires left { AllLeft self.old }
        requires stands { StandsBehindSome (files_of (map (λ s. T.state s) stores.old.items)) self.old }
        requires fits { StoresFit (map (λ s. T.state s) stores.old.items) self.old.pieces.items }
        ensures finds { FindsOrRefuses (files_of (map (λ s. T.state s) stores.old.items)) self.old self.new result }
        ensures stores { LeavesStores (map (λ s. T.state s) stores.old.items) (map (λ s. T.state s) stores.new.items)
            self.old self.new result }
    {
        'pieces: loop {
            let due = first_due(&self.cursors);
            if self.next == self.pieces.len() {
                return Ok(due);
            }
            if comes_before(&self.cursors, due, &self.pieces[self.next]) {
                return Ok(due);
            }
            match self.load_next(stores) {
                Ok(()) => {}
                Err(why) => return Err(why),
            }
        }
    }

    // Gives the next message of the piece at that place.
    fn give(&mut self, i: usize) -> Turn
        requires within { i < length self.old.cursors.items }
        requires left { AllLeft self.old }
        ensures { GivesNext self.old self.new i result }
    {
        let head = self.cursors[i].next_head();
        let piece = self.cursors[i].piece;
        self.cursors[i].given += 1;
        self.last = i;
        Turn {
            log_time: head.time,
            input: piece.input,
            offset: piece.span.offset,
            at: piece.span.at,
            inner: head.offset,
        }
    }

    /// The next message, if one is left. Where it is refused, nothing is promised of the walk any more.
    pub fn advance<T: Store>(&mut self, stores: &mut Vec<T>) -> Result<Option<Turn>, WalkRefused>
        requires stands { StandsBehindSome (files_of (map (λ s. T.state s) stores.old.items)) self.old }
        requires fits { StoresFit (map (λ s. T.state s) stores.old.items) self.old.pieces.items }
        ensures advances { AdvancesOrRefuses (files_of (map (λ s. T.state s) stores.old.items)) self.old self.new
            result }
        ensures stores { LeavesStores (map (λ s. T.state s) stores.old.items) (map (λ s. T.state s) stores.new.items)
            self.old self.new result }
    {
        self.let_go();
        match self.load_due(stores) {
            Ok(Some(i)) => return Ok(Some(self.give(i))),
            Ok(None) => return Ok(None),
            Err(why) => return Err(why),
        }
    }
}
