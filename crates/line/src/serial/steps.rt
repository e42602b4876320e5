// Execution, order by order.
ghost use Rattle.std.specs.Prelude.{◌≡◌, ◌+◌, ◌/◌, ◌<◌, ◌≤◌, [], ◌∷◌, length, IfOk, vec_len, vec_capacity, OnErr, OnOk};
ghost use Rattle.line.specs.Frames.{extent};
ghost use Rattle.line.specs.Serial.{start, state_of, next_place, doing, entries_from};

use super::Progress;
use crate::frames::Frames;
use crate::store::Store;
use orders::Order;
use std::alloc::{AllocError, Global};

impl Progress {
    pub(super) fn new(heap: Global) -> Result<Progress, AllocError>
        ensures { IfOk result (λ p. state_of p ≡ start) }
    {
        let store = Store::new(heap)?;
        Ok(Progress {
            store,
            done: 0,
            malformed: Vec::new(heap),
        })
    }

    // Room to note so many malformed orders.
    pub(super) fn reserve(&mut self, orders: usize) -> Result<(), AllocError>
        ensures same { state_of self.new ≡ state_of self.old }
        ensures room { OnOk result (vec_len self.new.malformed + orders ≤ vec_capacity self.new.malformed) }
        ensures wanting { OnErr result (vec_capacity self.old.malformed < vec_len self.old.malformed + orders) }
    {
        self.malformed.reserve(orders)
    }

    // Does the orders that stand whole at the front of the bytes: how many bytes they take.
    pub(super) fn run(&mut self, bytes: &[u8]) -> usize
        requires { vec_len self.old.malformed + length bytes.now / 2 ≤ vec_capacity self.old.malformed }
        ensures does { state_of self.new ≡ doing (entries_from (next_place (state_of self.old)) bytes.now) (state_of self.old) }
        ensures takes { result ≡ extent (entries_from (next_place (state_of self.old)) bytes.now) }
        ensures within { result ≤ length bytes.now }
    {
        let mut decoded = Order::idle();
        let mut taken = 0;
        let first = self.done + self.malformed.len() as u32;
        for (place, order) in (first..u32::MAX).zip(Frames::new(bytes)) {
            self.step(place, order, &mut decoded);
            // behind its length in two bytes
            taken += 2 + order.len();
        }
        taken
    }

    // Does the next order, decoded into the room that is lent; one that is malformed is noted and does nothing.
    fn step(&mut self, place: u32, order: &[u8], decoded: &mut Order)
        requires { (place ≡ next_place (state_of self.old)) × ((place < 4294967295) × (vec_len self.old.malformed < vec_capacity self.old.malformed)) }
        ensures does { state_of self.new ≡ doing (order.now ∷ []) (state_of self.old) }
        ensures room { vec_capacity self.new.malformed ≡ vec_capacity self.old.malformed }
    {
        match decoded.decode_into(order) {
            Ok(()) => {
                self.store.apply(decoded);
                self.done += 1;
            }
            Err(_) => self.malformed.push_reserved(place),
        }
    }
}
