// The channels of a crew, with the passes of all seats.

ghost use Rattle.std.specs.Prelude.{◌≡◌, ◌<◌, ◌+◌, ◌++◌, ◌∷◌, [], true, false, IfOk, OnOk, vec_len};
ghost use Rattle.std.specs.Prelude.{vec_capacity};
ghost use Rattle.std.specs.VecDeque.{deque_len, deque_capacity};
ghost use Rattle.crossbeam_channel.specs.Claims.{view, IsSeatAt};
ghost use Rattle.crossbeam_channel.specs.Ends.{sends_on};
ghost use Rattle.crew_channels.specs.Results.{results};
ghost use Rattle.crew_seating.specs.Opened.{AreOpen, IsOpen, IsOpenSeat};

use arm_value::OutOfMemory;
use crew_channels::{
    DonePass, DoneReceiver, DoneSender, OrderPass, open_orders, open_results, seat_pass,
};
use crew_workers::SeatChannel;
use std::alloc::{AllocError, Global};
use std::collections::VecDeque;

/// The ends of all channels: one for each seat, in their order, and the shared one.
#[derive(Drop)]
pub struct Ends {
    /// The channels of the seats.
    pub channels: Vec<SeatChannel>,
    /// The seats' end of the shared channel.
    pub to: DoneSender,
    /// The driver's end of the shared channel.
    pub from: DoneReceiver,
}

/// What is known of the channels before a seat is at work.
#[derive(Drop)]
pub struct SeatPasses {
    /// The number of the seat.
    pub number: u32,
    /// What the driver knows of the seat's channel.
    pub driver: OrderPass,
    /// What the seat knows of its channel.
    pub orders: OrderPass,
    /// What the seat knows of the shared channel.
    pub results: DonePass,
}

/// Channels that are open, with the driver's pass of the shared channel and the passes of the seats.
#[derive(Drop)]
pub struct Opened {
    /// The ends of the channels.
    pub ends: Ends,
    /// What the driver knows of the shared channel.
    pub results: DonePass,
    /// What is known of the channels of each seat, in their order.
    pub passes: VecDeque<SeatPasses>,
}

/// Opens the channels of so many seats.
pub fn open_channels(alloc: Global, seats: u32) -> Result<Opened, OutOfMemory>
    requires { 0 < seats }
    ensures { IfOk result (IsOpen seats) }
{
    let (to, from, results) = open_results(alloc, seats as usize)?;
    let mut results = results;
    let (channels, passes) = open_seats(alloc, &to, &mut results, seats)?;
    Ok(Opened {
        ends: Ends { channels, to, from },
        results,
        passes,
    })
}

// The channel of a seat, with its passes.
#[derive(Drop)]
struct OpenSeat {
    channel: SeatChannel,
    passes: SeatPasses,
}

// Opens the channel of the next seat, and makes its passes.
fn open_seat(
    alloc: Global,
    to: &DoneSender,
    pass: &mut DonePass,
    number: u32,
) -> Result<OpenSeat, OutOfMemory>
    requires { IsSeatAt (sends_on to.now) pass.old
        × (view pass.old ≡ results true false number 0 [] []) }
    ensures pass { IsSeatAt (sends_on to.now) pass.new }
    ensures made { OnOk result (view pass.new ≡ results true false (number + 1) 0 [] []) }
    ensures seat { IfOk result (λ s. IsOpenSeat (sends_on to.now) number s.channel s.passes) }
{
    let (sender, receiver, driver, orders) = open_orders(alloc)?;
    let results = seat_pass(to, pass);
    let channel = SeatChannel { sender, receiver };
    let passes = SeatPasses {
        number,
        driver,
        orders,
        results,
    };
    Ok(OpenSeat { channel, passes })
}

// Opens the channel of each seat, and makes its passes.
fn open_seats(
    alloc: Global,
    to: &DoneSender,
    pass: &mut DonePass,
    seats: u32,
) -> Result<(Vec<SeatChannel>, VecDeque<SeatPasses>), OutOfMemory>
    requires { IsSeatAt (sends_on to.now) pass.old × (view pass.old ≡ results true false 0 0 [] []) }
    ensures pass { IsSeatAt (sends_on to.now) pass.new }
    ensures made { OnOk result (view pass.new ≡ results true false seats 0 [] []) }
    ensures seats { IfOk result (λ r. AreOpen (sends_on to.now) seats r.0.items r.1.items) }
{
    let mut channels = Vec::with_capacity(alloc, seats as usize)?;
    let Ok(room) = VecDeque::with_capacity(alloc, seats as usize) else {
        return run_out(channels);
    };
    let mut passes = room;
    for number in 0..seats {
        match open_seat(alloc, to, pass, number) {
            Ok(seat) => add_seat(&mut channels, &mut passes, seat),
            Err(_) => return run_out((channels, passes)),
        }
    }
    Ok((channels, passes))
}

// Adds a seat to lists that have room for it.
fn add_seat(channels: &mut Vec<SeatChannel>, passes: &mut VecDeque<SeatPasses>, seat: OpenSeat)
    requires channels { vec_len channels.old < vec_capacity channels.old }
    requires passes { deque_len passes.old < deque_capacity passes.old }
    ensures channels { channels.new.items ≡ channels.old.items ++ seat.channel ∷ [] }
    ensures passes { passes.new.items ≡ passes.old.items ++ seat.passes ∷ [] }
    ensures capacity { (vec_capacity channels.new ≡ vec_capacity channels.old)
        × (deque_capacity passes.new ≡ deque_capacity passes.old) }
{
    let OpenSeat {
        channel,
        passes: own,
    } = seat;
    channels.push_reserved(channel);
    passes.push_back_reserved(own);
}

// Out of memory; the part is dropped.
fn run_out<T: Drop, R>(_part: T) -> Result<R, OutOfMemory>
    ensures { IfOk result (λ _. ⊥) }
{
    Err(AllocError)
}
