//! Variables in the order of their activities.

ghost use Rattle.std.specs.Prelude.{◌≡◌, ◌+◌, ◌-◌, ◌/◌, ◌^◌, ◌<◌, [], length, map, min, replicate, slice_index};
ghost use Rattle.std.specs.Prelude.{slice_set, IfOk, IfNone, IfSome};
ghost use Rattle.std.specs.List.{range_with_len};
ghost use Rattle.am_trail.specs.Orders.{HoldsAllBut, HoldsAlso, IsFirst, IsRanked};

use crate::heap::{insert, order_all, push, rise, take_head};
use std::alloc::{AllocError, Global};
use std::marker::Model;

/// A heap of variables by their activities, which are whole numbers. Contracts see the activity of
/// each variable, and the list of the variables that are held, in order of their numbers.
#[derive(Drop)]
pub struct Order {
    activities: Vec<u64>,
    heap: Vec<u32>,
    places: Vec<u32>,
}

impl Model for Order {
    ghost use Rattle.std.specs.Prelude.{vec_capacity};
    ghost use Rattle.am_trail.specs.Orders.{Ranked};
    ghost use Rattle.am_trail.specs.inside.Heaps.{IsIndexedHeap};
    ghost use Rattle.am_trail.specs.inside.Places.{placed_variables};

    ghost Value = { Ranked };

    ghost view = { λ a. record { activities = a.activities.items; held = placed_variables a.places.items } };

    ghost invariant = { λ a. IsIndexedHeap a.activities.items a.heap.items a.places.items (vec_capacity a.heap) };
}

fn halve_all(activities: &mut [u64])
    ensures { activities.new ≡ map (λ a. a / 2) activities.old }
{
    for activity in activities.iter_mut() {
        *activity /= 2;
    }
}

impl Order {
    /// All variables below `vars`, held, with activity 0.
    pub fn new(alloc: Global, vars: u32) -> Result<Order, AllocError>
        ensures { IfOk result (λ o. o ≡ record { activities = replicate vars 0; held = range_with_len 0 vars }) }
    {
        let activities = vec![in alloc; 0; vars as usize]?;
        let mut heap = Vec::with_capacity(alloc, vars as usize)?;
        let mut places = vec![in alloc; 0; vars as usize]?;
        for v in 0..vars {
            push(&mut heap, &mut places, v);
        }
        Ok(Order {
            activities,
            heap,
            places,
        })
    }

    /// The activity of a variable.
    pub fn activity(&self, v: u32) -> u64
        requires { v < length self.now.activities }
        ensures { result ≡ slice_index self.now.activities v }
    {
        self.activities[v as usize]
    }

    /// Makes a variable more active by one.
    pub fn raise(&mut self, v: u32)
        requires v { v < length self.old.activities }
        requires fits { slice_index self.old.activities v + 1 < 2 ^ 64 }
        ensures { let more = slice_index self.old.activities v + 1 in
            self.new ≡ record self.old { activities = slice_set self.old.activities v more } }
    {
        self.raise_by(v, 1);
    }

    /// Makes a variable more active. An activity stops at 2^64 - 1.
    pub fn raise_by(&mut self, v: u32, by: u64)
        requires { v < length self.old.activities }
        ensures { let more = min (slice_index self.old.activities v + by) (2 ^ 64 - 1) in
            self.new ≡ record self.old { activities = slice_set self.old.activities v more } }
    {
        let variable = v as usize;
        self.activities[variable] = self.activities[variable].saturating_add(by);
        let place = self.places[variable] as usize;
        if place > 0 {
            rise(
                &self.activities,
                &mut self.heap,
                &mut self.places,
                place - 1,
            );
        }
    }

    /// Halves each activity, rounding down.
    pub fn halve(&mut self)
        ensures { self.new ≡ record self.old { activities = map (λ a. a / 2) self.old.activities } }
    {
        halve_all(&mut self.activities);
        order_all(&self.activities, &mut self.heap, &mut self.places);
    }

    /// The held variable of the greatest activity, and the least number among equals, if one is held.
    /// It is held no more.
    pub fn take_first(&mut self) -> Option<u32>
        ensures none { IfNone result ((self.old.held ≡ []) × (self.new ≡ self.old)) }
        ensures first { IfSome result (IsFirst self.old) }
        ensures taken { IfSome result (λ v. HoldsAllBut v self.old self.new) }
    {
        take_head(&self.activities, &mut self.heap, &mut self.places)
    }

    /// Holds a variable, if it isn't held.
    pub fn hold(&mut self, v: u32)
        requires { v < length self.old.activities }
        ensures { HoldsAlso v self.old self.new }
    {
        if self.places[v as usize] == 0 {
            insert(&self.activities, &mut self.heap, &mut self.places, v);
        }
    }

    /// What is known of each order. It does nothing.
    pub fn known(&self)
        ensures { IsRanked self.now }
    {
        let _len = self.activities.len();
    }
}
