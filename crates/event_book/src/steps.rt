//! The steps that calls are made of.
ghost use Rattle.std.specs.Prelude.{◌≡◌, ◌+◌, ◌<◌, [], ◌∷◌, ◌++◌, length, true, IfOk, OnErr};
ghost use mathlib.Core.Option.{none, some};
ghost use Rattle.atomic_table.specs.Table.{step};
ghost use Rattle.event_book.specs.Lists.{most_entries};
ghost use Rattle.event_book.specs.Seats.{IsSound};
ghost use Rattle.event_book.specs.Calls.{MayAdd, Appended, Looked};
ghost use Rattle.event_book.specs.Views.{shown, first_view, opened_view, note_of, with_seen, parent_view, child_view, joined_view};
ghost use Rattle.event_book.specs.Steps.{IsNew, IsPlaced, StaysSound, SeesList, AddsEntry, IsTold, TakesLonger};

use crate::book::{Full, MOST_ENTRIES};
use crate::book_name::BookName;
use crate::entries::Entries;
use crate::rule::{
    AddEntry, EndSeat, LengthTable, OpenBook, PassNote, SeeList, SplitSeat, TakeLonger, Token,
};

/// The first seat opens the book.
pub fn open_under<E: Entries, N: BookName>(table: &LengthTable<E>, token: &mut Token<E>)
    requires { IsNew table.now.shared.table_id token.old.table_id token.old.me }
    ensures placed { IsPlaced table.now.shared.table_id token.new.table_id token.new.me }
    ensures opened { token.new.me.0 ≡ opened_view N.tells first_view }
{
    table.shared.load::<OpenBook<N>>(token, 0);
}

/// The seat sees the whole list, and answers its length.
fn see_list<E: Entries>(table: &LengthTable<E>, token: &mut Token<E>) -> u64
    requires { IsPlaced table.now.shared.table_id token.old.table_id token.old.me × (token.old.me.0.opened ≡ true) }
    ensures placed { IsPlaced table.now.shared.table_id token.new.table_id token.new.me }
    ensures seen { SeesList E.lawful (step table.now.shared.table_id.slots 0 0 0 none) token.old.me result token.new.me }
{
    table.shared.load::<SeeList>(token, 0)
}

/// Adds an entry where the list is what was seen, and sees the whole list where it is longer. Answers the length that it found.
fn try_add<E: Entries>(table: &LengthTable<E>, token: &mut Token<E>, seen: u64, entry: &E) -> u64
    requires placed { IsPlaced table.now.shared.table_id token.old.table_id token.old.me × (token.old.me.0.opened ≡ true) }
    requires sound { IsSound E.lawful token.old.me.0.tells (shown token.old.me.0) }
    requires length { (length token.old.me.0.seen ≡ seen) × (seen < most_entries) }
    requires lawful { E.lawful token.old.me.0.tells (token.old.me.0.seen ++ (record { by = token.old.me.0.name; entry = entry.now }) ∷ []) }
    ensures placed { IsPlaced table.now.shared.table_id token.new.table_id token.new.me }
    ensures added { AddsEntry E.lawful (step table.now.shared.table_id.slots 0 seen (seen + 1) (some entry.now)) token.old.me result token.new.me }
{
    table
        .shared
        .compare_exchange_with::<AddEntry>(token, 0, seen, seen + 1, entry)
}

/// Adds an entry past all that is seen, or sees that the list is full.
pub fn add_entry<E: Entries>(
    table: &LengthTable<E>,
    token: &mut Token<E>,
    entry: &E,
) -> Result<u64, Full>
    requires placed { IsPlaced table.now.shared.table_id token.old.table_id token.old.me × (token.old.me.0.opened ≡ true) }
    requires sound { IsSound E.lawful token.old.me.0.tells (shown token.old.me.0) }
    requires lawful { MayAdd E.lawful token.old.me.0.tells (shown token.old.me.0) entry.now }
    ensures placed { IsPlaced table.now.shared.table_id token.new.table_id token.new.me }
    ensures sound { StaysSound E.lawful token.old.me.0 token.new.me.0 }
    ensures ok { IfOk result (λ position. Appended (shown token.old.me.0) entry.now position (shown token.new.me.0)) }
    ensures room { IfOk result (λ position. position < most_entries) }
    ensures full { OnErr result (Looked (shown token.old.me.0) (shown token.new.me.0) × (length token.new.me.0.seen ≡ most_entries)) }
{
    let mut seen = see_list(table, token);
    while seen < MOST_ENTRIES {
        let found = try_add(table, token, seen, entry);
        if found == seen {
            return Ok(found);
        }
        seen = found;
    }
    Err(Full)
}

/// A note of what a seat has seen.
fn note_seen<E: Entries>(table: &LengthTable<E>, token: &mut Token<E>) -> Token<E>
    requires { IsPlaced table.now.shared.table_id token.old.table_id token.old.me × (token.old.me.0.opened ≡ true) }
    ensures placed { IsPlaced table.now.shared.table_id token.new.table_id token.new.me }
    ensures same { token.new.me ≡ token.old.me }
    ensures note { (result.table_id ≡ table.now.shared.table_id) × (result.me ≡ (note_of token.old.me.0.seen, [])) }
{
    table.shared.split_seat::<PassNote>(token)
}

/// A seat is told of what a note says.
fn read_note<E: Entries>(table: &LengthTable<E>, token: &mut Token<E>, note: Token<E>)
    requires { IsPlaced table.now.shared.table_id token.old.table_id token.old.me × (note.table_id ≡ table.now.shared.table_id) × (note.me.1 ≡ []) }
    ensures placed { IsPlaced table.now.shared.table_id token.new.table_id token.new.me }
    ensures told { token.new.me ≡ (with_seen token.old.me.0 token.old.me.0.seen note.me.0.seen, token.old.me.1) }
{
    table.shared.join_seat::<PassNote>(token, note);
}

/// The seat has then seen the longer of what it had seen and what it was told of.
fn take_longer<E: Entries>(table: &LengthTable<E>, token: &mut Token<E>) -> u64
    requires { IsPlaced table.now.shared.table_id token.old.table_id token.old.me }
    ensures placed { IsPlaced table.now.shared.table_id token.new.table_id token.new.me }
    ensures longer { TakesLonger E.lawful (step table.now.shared.table_id.slots 0 0 0 none) token.old.me result token.new.me }
{
    table.shared.load::<TakeLonger>(token, 0)
}

/// The second seat is told of what the first has seen.
pub fn tell_seen<E: Entries>(table: &LengthTable<E>, from: &mut Token<E>, to: &mut Token<E>)
    requires from { IsPlaced table.now.shared.table_id from.old.table_id from.old.me × (from.old.me.0.opened ≡ true) }
    requires to { IsPlaced table.now.shared.table_id to.old.table_id to.old.me }
    ensures from { IsPlaced table.now.shared.table_id from.new.table_id from.new.me × (from.new.me ≡ from.old.me) }
    ensures to { IsPlaced table.now.shared.table_id to.new.table_id to.new.me }
    ensures told { IsTold E.lawful from.old.me.0.seen to.old.me.0 to.new.me.0 }
{
    let note = note_seen(table, from);
    read_note(table, to, note);
    take_longer(table, to);
}

/// A seat with the next name of this one.
pub fn split_from<E: Entries>(table: &LengthTable<E>, token: &mut Token<E>) -> Token<E>
    requires { IsPlaced table.now.shared.table_id token.old.table_id token.old.me × (token.old.me.0.opened ≡ true) }
    ensures placed { IsPlaced table.now.shared.table_id token.new.table_id token.new.me }
    ensures parent { token.new.me ≡ (parent_view token.old.me.0, token.old.me.1) }
    ensures child { IsPlaced table.now.shared.table_id result.table_id result.me × (result.me.0 ≡ child_view token.old.me.0) }
{
    table.shared.split_seat::<SplitSeat>(token)
}

/// The other seat ends in this one.
pub fn end_in<E: Entries>(table: &LengthTable<E>, token: &mut Token<E>, other: Token<E>)
    requires { IsPlaced table.now.shared.table_id token.old.table_id token.old.me × IsPlaced table.now.shared.table_id other.table_id other.me }
    ensures placed { IsPlaced table.now.shared.table_id token.new.table_id token.new.me }
    ensures joined { token.new.me ≡ (joined_view token.old.me.0 other.me.0, token.old.me.1) }
{
    table.shared.join_seat::<EndSeat>(token, other);
}
