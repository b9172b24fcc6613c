//! Variables by their activity, in a heap.

use crate::rows::{NONE, at, long_at, put, put_long, short};
use std::alloc::{AllocError, Global};

/// Activities above this are all made smaller.
const MOST: u64 = 1 << 58;

/// By so many places they are then shifted.
const SHIFT: u32 = 40;

/// A raise grows by one part in so many with each conflict.
const GROWTH: u64 = 16;

/// No heap is deeper.
const DEPTH: u32 = 64;

/// The activities, and a heap of the variables that are held.
#[derive(Drop)]
pub struct Order {
    activities: Vec<u64>,
    heap: Vec<u32>,
    /// Where each variable stands in the heap, or `NONE`.
    places: Vec<u32>,
    len: usize,
    raise: u64,
}

impl Order {
    /// Holds all variables, the first ones first.
    pub fn new(alloc: Global, vars: usize) -> Result<Order, AllocError> {
        let mut heap = Vec::new(alloc);
        let mut places = Vec::new(alloc);
        for v in 0..vars {
            heap.push(short(v))?;
            places.push(short(v))?;
        }
        Ok(Order {
            activities: vec![in alloc; 0; vars]?,
            heap,
            places,
            len: vars,
            raise: 1 << 16,
        })
    }

    #[inline(always)]
    fn activity(&self, v: u32) -> u64 {
        long_at(self.activities.as_slice(), v as usize)
    }

    #[inline(always)]
    fn set(&mut self, i: usize, v: u32) {
        put(self.heap.as_mut_slice(), i, v);
        put(self.places.as_mut_slice(), v as usize, short(i));
    }

    /// Moves the variable at a place towards the head.
    fn rise(&mut self, from: usize) {
        let v = at(self.heap.as_slice(), from);
        let activity = self.activity(v);
        let mut i = from;
        for _ in 0..DEPTH {
            if i == 0 {
                break;
            }
            let parent = (i - 1) / 2;
            let w = at(self.heap.as_slice(), parent);
            if self.activity(w) >= activity {
                break;
            }
            self.set(i, w);
            i = parent;
        }
        self.set(i, v);
    }

    /// Moves the variable at the head away from it.
    fn sink(&mut self) {
        let v = at(self.heap.as_slice(), 0);
        let activity = self.activity(v);
        let mut i: usize = 0;
        for _ in 0..DEPTH {
            let left = i.wrapping_mul(2).wrapping_add(1);
            if left >= self.len {
                break;
            }
            let child = self.larger_child(left);
            let w = at(self.heap.as_slice(), child);
            if activity >= self.activity(w) {
                break;
            }
            self.set(i, w);
            i = child;
        }
        self.set(i, v);
    }

    #[inline(always)]
    fn larger_child(&self, left: usize) -> usize {
        let right = left.wrapping_add(1);
        if right < self.len
            && self.activity(at(self.heap.as_slice(), right))
                > self.activity(at(self.heap.as_slice(), left))
        {
            right
        } else {
            left
        }
    }

    /// Puts a variable in, unless it is there.
    pub fn hold(&mut self, v: u32) {
        if at(self.places.as_slice(), v as usize) == NONE {
            let end = self.len;
            self.set(end, v);
            self.len = end.wrapping_add(1);
            self.rise(end);
        }
    }

    /// Takes the most active variable out.
    pub fn take_first(&mut self) -> Option<u32> {
        if self.len == 0 {
            return None;
        }
        let first = at(self.heap.as_slice(), 0);
        self.len -= 1;
        let last = at(self.heap.as_slice(), self.len);
        self.set(0, last);
        put(self.places.as_mut_slice(), first as usize, NONE);
        if self.len > 0 {
            self.sink();
        }
        Some(first)
    }

    /// Raises a variable's activity.
    pub fn bump(&mut self, v: u32) {
        let raised = self.activity(v).wrapping_add(self.raise);
        put_long(self.activities.as_mut_slice(), v as usize, raised);
        if raised > MOST {
            self.shrink();
        }
        let place = at(self.places.as_slice(), v as usize);
        if place != NONE {
            self.rise(place as usize);
        }
    }

    fn shrink(&mut self) {
        for i in 0..self.activities.len() {
            let less = long_at(self.activities.as_slice(), i) >> SHIFT;
            put_long(self.activities.as_mut_slice(), i, less);
        }
        self.raise = (self.raise >> SHIFT).max(1);
    }

    /// Makes later raises larger.
    pub fn age(&mut self) {
        self.raise = self.raise.wrapping_add(self.raise / GROWTH).wrapping_add(1);
        if self.raise > MOST {
            self.shrink();
        }
    }
}
