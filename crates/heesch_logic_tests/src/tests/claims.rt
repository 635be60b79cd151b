//! Boards with many seats and with none.
ghost use Rattle.std.specs.Prelude.{◌≡◌, ◌+◌, ◌≤◌, OnOk, false};
ghost use Rattle.heesch_claims.specs.Board.{BelongsTo};

use heesch_claims::{Board, ClaimCore, Drawn, Event, Seat, Told};
use heesch_io::NoMemory;
use heesch_made::same;
use std::alloc::Global;
use std::test::Fail;

/// What two draws give, and what a board has when it is closed.
type Draws = ([Option<u32>; 2], Drawn);

/// What a board has when it is closed.
const fn closed(shares: u32, ended: bool) -> Drawn {
    Drawn { shares, ended }
}

/// The first seat of a board of nothing draws twice.
fn of_nothing(alloc: Global) -> Result<Draws, NoMemory> {
    let (board, mut seat) = Board::new(alloc, 0)?;
    let first = board.draw(&mut seat);
    let second = board.draw(&mut seat);
    Ok(([first, second], board.close(seat)))
}

/// Of a board of three a second seat draws and is dropped, and then the first one draws.
fn with_a_dropped_seat(alloc: Global) -> Result<Draws, NoMemory> {
    let (mut board, mut seat) = Board::new(alloc, 3)?;
    let mut other = board.split(&mut seat)?;
    let first = board.draw(&mut other);
    drop(other);
    let second = board.draw(&mut seat);
    Ok(([first, second], board.close(seat)))
}

/// Of a board of one a second seat draws, the first one draws, and they are joined.
fn with_a_joined_seat(alloc: Global) -> Result<Draws, NoMemory> {
    let (mut board, mut seat) = Board::new(alloc, 1)?;
    let mut other = board.split(&mut seat)?;
    let first = board.draw(&mut other);
    let second = board.draw(&mut seat);
    board.join(&mut seat, other);
    Ok(([first, second], board.close(seat)))
}

#[test]
fn a_board_of_nothing_ends_at_once(rt: HostRuntime) -> Result<(), Fail> {
    same(
        "draws",
        of_nothing(rt.alloc())?,
        ([None, None], closed(64, true)),
    )
}

#[test]
fn a_dropped_seat_takes_its_shares_along(rt: HostRuntime) -> Result<(), Fail> {
    let draws = with_a_dropped_seat(rt.alloc())?;
    same("draws", draws, ([Some(0), Some(1)], closed(63, false)))
}

/// What the machine tells when the worker draws, where it is live.
fn told(core: &mut ClaimCore, who: u32) -> Result<Option<Told>, NoMemory> {
    if !core.live(who) {
        return Ok(None);
    }
    Ok(Some(core.step(Event::Draw { who })?))
}

/// What the machine tells when worker 1 is joined to worker 0, where both are live, and which of three are live then.
fn joined(core: &mut ClaimCore) -> Result<Option<(Told, [bool; 3])>, NoMemory> {
    if !core.live(0) || !core.live(1) {
        return Ok(None);
    }
    let told = core.step(Event::Join { into: 0, from: 1 })?;
    Ok(Some((told, [core.live(0), core.live(1), core.live(2)])))
}

/// The machine of one ticket after a split.
fn split(alloc: Global) -> Result<(ClaimCore, Told), NoMemory> {
    let mut core = ClaimCore::new(alloc, 1)?;
    let told = core.step(Event::Split { from: 0 })?;
    Ok((core, told))
}

#[test]
fn the_machine_goes_beside_the_board(rt: HostRuntime) -> Result<(), Fail> {
    let draws = with_a_joined_seat(rt.alloc())?;
    same("board", draws, ([Some(0), None], closed(64, true)))?;
    let (mut core, made) = split(rt.alloc())?;
    same("split", made, Told::Made { who: 1 })?;
    same(
        "first",
        told(&mut core, 1)?,
        Some(Told::Ticket { number: 0 }),
    )?;
    same("second", told(&mut core, 0)?, Some(Told::End))?;
    same(
        "join",
        joined(&mut core)?,
        Some((Told::Joined, [true, false, false])),
    )
}

/// As many seats beside this one draw once each, this one first, and are put together again.
fn draw_each(
    board: &mut Board,
    seat: &mut Seat,
    others: u32,
    drawn: &mut Vec<u32>,
) -> Result<(), NoMemory>
    requires seat { BelongsTo seat.old board.old }
    requires open { seat.old.ended ≡ false }
    requires shares { seat.old.shares ≡ others + 1 }
    requires room { board.old.made + others ≤ 64 }
    ensures board { OnOk result ((board.new.id ≡ board.old.id) × (board.new.count ≡ board.old.count)) }
    ensures seat { OnOk result ((seat.new.board ≡ seat.old.board) × (seat.new.count ≡ seat.old.count)) }
{
    if others == 0 {
        if let Some(ticket) = board.draw(seat) {
            drawn.push(ticket)?;
        }
        return Ok(());
    }
    let mut other = board.split(seat)?;
    draw_each(board, seat, others - 1, drawn)?;
    if let Some(ticket) = board.draw(&mut other) {
        drawn.push(ticket)?;
    }
    board.join(seat, other);
    Ok(())
}

#[test]
fn sixty_four_seats_draw_three_tickets(rt: HostRuntime) -> Result<(), Fail> {
    let (mut board, mut seat) = Board::new(rt.alloc(), 3)?;
    let mut drawn = Vec::new(rt.alloc());
    draw_each(&mut board, &mut seat, 63, &mut drawn)?;
    same("drawn", drawn.as_slice(), [0, 1, 2].as_slice())?;
    same("closed", board.close(seat), closed(64, true))
}
