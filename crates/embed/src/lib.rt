// The calls for C and Rust. Everything goes by value or in lent buffers. A function for each width, since C calls each by
// its own name. Each call takes what document 01 names, in its order: C hands it over so. A listing comes with its count,
// which document 01 names and refusal 20 tests.
#![tactic(auto)]

ghost use Rattle.std.specs.Prelude.{◌≡◌, Option, Result};
ghost use Rattle.policy.specs.Answers.{reply_number};
ghost use Rattle.policy.specs.Limits.{bits};
ghost use Rattle.policy.specs.Read.{read_text};
ghost use Rattle.policy.specs.Valid.{valid};
ghost use Rattle.policy.specs.Write.{write, write_buffer};
ghost use Rattle.formula.specs.Truth.{at};
ghost use Rattle.formula.specs.Decide.{decide};
ghost use Rattle.tuples.specs.Tuples.{list, list_buffer, decide_by_tuples};
ghost use Rattle.labels.specs.Compile.{lent, compile, compile_buffers};
ghost use Rattle.labels.specs.Apart.{Tells};
ghost use Rattle.labels.specs.declared.Witness.{Witness};
ghost use Rattle.policy.specs.declared.refusal.Refusal.{Refusal};
ghost use Rattle.board.specs.Machine.{opens, adds, drops, closes, requests};
ghost use Rattle.board.specs.Board.{Labels, labels_of, fresh, board_step};
ghost use Rattle.embed.specs.Answers.{crossed_reading, counted, crossed_counts, separation, crossed_step};

mod answer;
pub mod crossed;

use crate::crossed::{Counted, CrossedCounts, CrossedReading, CrossedStep, Separation};
use board::{Board, Lent};
use labels::Counts;
use policy::value::PolicyValue;

// The policy of a text, or the refusal and its line.
pub fn helvemoik_read(text: &[u8]) -> CrossedReading
    ensures { result ≡ crossed_reading (read_text text.now) }
{
    CrossedReading::from(reader::read(text))
}

// The text of a policy, put into the buffer.
pub fn helvemoik_write(policy: PolicyValue, buffer: &mut [u8]) -> Counted
    ensures answer { result ≡ counted (write policy buffer.old) }
    ensures bytes { buffer.new ≡ write_buffer policy buffer.old }
{
    Counted::from(writer::write(policy, buffer))
}

// Check 11.
pub fn helvemoik_valid(policy: PolicyValue) -> bool
    ensures { result ≡ valid policy }
{
    validity::check(policy)
}

// Decides by the formula and the pairs, on two sets.
pub fn helvemoik_decide(policy: PolicyValue, action: u32, user: u32, object: u32) -> u32
    ensures { result ≡ reply_number (decide policy action (at user object)) }
{
    answer::decision(formula::decide(policy, action, user, object))
}

// Stores the tuples of an action, 16 bits each.
pub fn helvemoik_list_16(policy: PolicyValue, action: u32, buffer: &mut [u16]) -> Counted
    ensures answer { result ≡ counted (list policy 16 action buffer.old) }
    ensures tuples { buffer.new ≡ list_buffer policy 16 action buffer.old }
{
    Counted::from(tuples::list::<u16>(policy, action, buffer))
}

// Stores the tuples of an action, 32 bits each.
pub fn helvemoik_list_32(policy: PolicyValue, action: u32, buffer: &mut [u32]) -> Counted
    ensures answer { result ≡ counted (list policy 32 action buffer.old) }
    ensures tuples { buffer.new ≡ list_buffer policy 32 action buffer.old }
{
    Counted::from(tuples::list::<u32>(policy, action, buffer))
}

// Decides by the first `count` tuples of a listing, 16 bits each.
pub fn helvemoik_decide_by_tuples_16(
    policy: PolicyValue,
    user: u32,
    object: u32,
    listing: &[u16],
    count: usize,
) -> u32
    ensures { result ≡ reply_number (decide_by_tuples policy 16 (at user object) listing.now count) }
{
    answer::decision(tuples::decide::<u16>(policy, user, object, listing, count))
}

// Decides by the first `count` tuples of a listing, 32 bits each.
pub fn helvemoik_decide_by_tuples_32(
    policy: PolicyValue,
    user: u32,
    object: u32,
    listing: &[u32],
    count: usize,
) -> u32
    ensures { result ≡ reply_number (decide_by_tuples policy 32 (at user object) listing.now count) }
{
    answer::decision(tuples::decide::<u32>(policy, user, object, listing, count))
}

// Fills the three buffers with labels and table, both in bytes.
pub fn helvemoik_compile_8_8(
    policy: PolicyValue,
    users: &mut [u8],
    objects: &mut [u8],
    table: &mut [u8],
) -> CrossedCounts
    ensures answer { result ≡ crossed_counts (compile policy (lent (bits 8 8) users.old objects.old table.old)) }
    ensures buffers { lent (bits 8 8) users.new objects.new table.new ≡ compile_buffers policy (lent (bits 8 8) users.old objects.old table.old) }
{
    CrossedCounts::from(labels::compile::<u8, u8>(policy, users, objects, table))
}

// Fills the three buffers with labels in bytes and a table of 16-bit entries.
pub fn helvemoik_compile_8_16(
    policy: PolicyValue,
    users: &mut [u8],
    objects: &mut [u8],
    table: &mut [u16],
) -> CrossedCounts
    ensures answer { result ≡ crossed_counts (compile policy (lent (bits 8 16) users.old objects.old table.old)) }
    ensures buffers { lent (bits 8 16) users.new objects.new table.new ≡ compile_buffers policy (lent (bits 8 16) users.old objects.old table.old) }
{
    CrossedCounts::from(labels::compile::<u8, u16>(policy, users, objects, table))
}

// Fills the three buffers with labels and entries of 16 bits.
pub fn helvemoik_compile_16_16(
    policy: PolicyValue,
    users: &mut [u16],
    objects: &mut [u16],
    table: &mut [u16],
) -> CrossedCounts
    ensures answer { result ≡ crossed_counts (compile policy (lent (bits 16 16) users.old objects.old table.old)) }
    ensures buffers { lent (bits 16 16) users.new objects.new table.new ≡ compile_buffers policy (lent (bits 16 16) users.old objects.old table.old) }
{
    CrossedCounts::from(labels::compile::<u16, u16>(policy, users, objects, table))
}

// Whether something tells two user sets apart.
pub fn helvemoik_apart(policy: PolicyValue, one: u32, other: u32) -> Separation
    ensures { (a : Result (Option Witness) Refusal) × Tells policy one other a × (result ≡ separation a) }
{
    Separation::from(labels::apart(policy, one, other))
}

// A board that holds no session.
pub fn helvemoik_fresh() -> Board
    ensures { result ≡ fresh }
{
    board::fresh()
}

// Opens a session of the user that holds the set.
pub fn helvemoik_open(
    board: Board,
    policy: PolicyValue,
    user: u32,
    session: u32,
    set: u32,
) -> CrossedStep
    ensures { (l : Labels) → result ≡ crossed_step (board_step policy l (opens user session set) board) }
{
    CrossedStep::from(board::open(board, policy, user, session, set))
}

// The session's held set gains these values.
pub fn helvemoik_add(
    board: Board,
    policy: PolicyValue,
    user: u32,
    session: u32,
    set: u32,
) -> CrossedStep
    ensures { (l : Labels) → result ≡ crossed_step (board_step policy l (adds user session set) board) }
{
    CrossedStep::from(board::add(board, policy, user, session, set))
}

// The session's held set loses these values.
pub fn helvemoik_drop(
    board: Board,
    policy: PolicyValue,
    user: u32,
    session: u32,
    set: u32,
) -> CrossedStep
    ensures { (l : Labels) → result ≡ crossed_step (board_step policy l (drops user session set) board) }
{
    CrossedStep::from(board::drop(board, policy, user, session, set))
}

// Closes the session.
pub fn helvemoik_close(board: Board, policy: PolicyValue, user: u32, session: u32) -> CrossedStep
    ensures { (l : Labels) → result ≡ crossed_step (board_step policy l (closes user session) board) }
{
    CrossedStep::from(board::close(board, policy, user, session))
}

// NU and NO as they are handed in.
fn counts_of(nu: u32, no: u32) -> Counts
    ensures { result ≡ record { users = nu; objects = «no» } }
{
    Counts {
        users: nu,
        objects: no,
    }
}

// Grants or denies an action on an object by labels and table in bytes.
pub fn helvemoik_request_8_8(
    board: Board,
    policy: PolicyValue,
    nu: u32,
    no: u32,
    users: &[u8],
    objects: &[u8],
    table: &[u8],
    session: u32,
    action: u32,
    object: u32,
) -> CrossedStep
    ensures { result ≡ crossed_step (board_step policy (labels_of (record { users = nu; objects = «no» }) (lent (bits 8 8) users.now objects.now table.now)) (requests session action object) board) }
{
    let lent = Lent {
        counts: counts_of(nu, no),
        users,
        objects,
        table,
    };
    CrossedStep::from(board::request(board, policy, lent, session, action, object))
}

// Grants or denies an action on an object by labels in bytes and a table of 16-bit entries.
pub fn helvemoik_request_8_16(
    board: Board,
    policy: PolicyValue,
    nu: u32,
    no: u32,
    users: &[u8],
    objects: &[u8],
    table: &[u16],
    session: u32,
    action: u32,
    object: u32,
) -> CrossedStep
    ensures { result ≡ crossed_step (board_step policy (labels_of (record { users = nu; objects = «no» }) (lent (bits 8 16) users.now objects.now table.now)) (requests session action object) board) }
{
    let lent = Lent {
        counts: counts_of(nu, no),
        users,
        objects,
        table,
    };
    CrossedStep::from(board::request(board, policy, lent, session, action, object))
}

// Grants or denies an action on an object by labels and entries of 16 bits.
pub fn helvemoik_request_16_16(
    board: Board,
    policy: PolicyValue,
    nu: u32,
    no: u32,
    users: &[u16],
    objects: &[u16],
    table: &[u16],
    session: u32,
    action: u32,
    object: u32,
) -> CrossedStep
    ensures { result ≡ crossed_step (board_step policy (labels_of (record { users = nu; objects = «no» }) (lent (bits 16 16) users.now objects.now table.now)) (requests session action object) board) }
{
    let lent = Lent {
        counts: counts_of(nu, no),
        users,
        objects,
        table,
    };
    CrossedStep::from(board::request(board, policy, lent, session, action, object))
}
