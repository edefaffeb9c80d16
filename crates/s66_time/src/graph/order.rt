//! A legal order as a type (`Order`): a value of it can be made only of a permutation that keeps all dependences.

ghost use Rattle.std.specs.Prelude.{◌≡◌, ◌≤◌, length};
ghost use Rattle.s66_isa.specs.{BLOCK_LIMIT};
ghost use Rattle.s66_line.specs.{instrs_of};

use crate::graph::beginning::beginning_length;
use arrayvec::ArrayVec;
use s66_isa::{BLOCK_LIMIT, Instr};
use s66_line::Block;
use std::marker::Model;
use thiserror::Error;

/// A legal order of a block's instructions, by their numbers from 1. Each comes after all that it depends on, and all registers
/// and memory hold at the end what the source order leaves there.
#[derive(Drop)]
pub struct Order {
    instrs: ArrayVec<Instr, BLOCK_LIMIT>,
    order: ArrayVec<u8, BLOCK_LIMIT>,
}

impl Model for Order {
    ghost use Rattle.s66_time.specs.Ordered.{Ordered, IsKeptOrder};

    ghost Value = { Ordered };

    ghost view = { λ o. record { block = o.instrs.items; numbers = o.order.items } };

    ghost invariant = { λ o. IsKeptOrder o.instrs.items o.order.items };
}

/// Why a list of numbers is no legal order of a block.
///
/// The numbers before place `at`, which counts from 1, are a legal beginning. Either the list ends there too short, and `at` is
/// its length plus 1; or the number at this place isn't ready: something on which it depends is missing, it came before, or it
/// isn't of the block.
#[derive(Clone, Copy, Debug, Drop, Error, PartialEq, Eq)]
#[error("no legal order: place {at} has no number, or one that is not ready there")]
pub struct NotLegal {
    pub at: usize,
}

impl Order {
    ghost use Rattle.std.specs.Prelude.{ℕ, ◌≡◌, ◌≤◌, ◌<◌, ◌↔◌, IsTrue, IfOk, IfErr, length, get_or, is_ok};
    ghost use Rattle.s66_isa.specs.{instr_at, numbers, BLOCK_LIMIT};
    ghost use Rattle.s66_line.specs.{instrs_of};
    ghost use Rattle.s66_model.specs.{IsLegal, KeepsMeaning};
    ghost use Rattle.s66_time.specs.{IsListRefusal};

    /// The source order, in time linear in its length.
    pub fn source(block: &Block) -> Order
        ensures block { result.block ≡ instrs_of block.now }
        ensures numbers { result.numbers ≡ numbers (instrs_of block.now) }
        ensures legal { IsLegal result.block result.numbers }
        ensures meaning { KeepsMeaning result.block result.numbers }
    {
        let mut order = ArrayVec::new();
        for position in 0..block.count() {
            order.push((position + 1) as u8);
        }
        Order {
            instrs: instrs_of(block),
            order,
        }
    }

    /// The order of these numbers, which count from 1, if it is legal.
    ///
    /// Each pair of instructions is looked at once, and then a word an instruction for each number.
    pub fn new(block: &Block, numbers: &[u8]) -> Result<Order, NotLegal>
        ensures taken { IsTrue (is_ok result) ↔ IsLegal (instrs_of block.now) numbers.now }
        ensures ok { IfOk result (λ order. (order.block ≡ instrs_of block.now) × (order.numbers ≡ numbers.now)) }
        ensures meaning { IfOk result (λ order. KeepsMeaning order.block order.numbers) }
        ensures err { IfErr result (λ refusal. IsListRefusal (instrs_of block.now) numbers.now refusal.at) }
    {
        let front = beginning_length(block, numbers);
        if front < numbers.len() || front < block.count() {
            return Err(NotLegal { at: front + 1 });
        }
        Ok(Order {
            instrs: instrs_of(block),
            order: copy_of(numbers),
        })
    }

    /// The numbers in order, from 1.
    pub fn numbers(&self) -> &[u8]
        ensures value { result.now ≡ self.now.numbers }
        ensures legal { IsLegal self.now.block self.now.numbers }
        ensures meaning { KeepsMeaning self.now.block self.now.numbers }
        ensures few { length result.now ≤ BLOCK_LIMIT }
        ensures range { (i d : ℕ) → i < length result.now →
            (1 ≤ get_or result.now i d) × (get_or result.now i d ≤ length self.now.block) }
    {
        self.order.as_slice()
    }

    /// The instruction of a number, from 1.
    pub fn instr(&self, number: usize) -> Instr
        requires first { 1 ≤ number }
        requires last { number ≤ length self.now.block }
        ensures { result ≡ instr_at self.now.block number }
    {
        self.instrs[number - 1]
    }

    /// The same order, in time linear in its length.
    pub fn duplicate(&self) -> Order
        ensures { result ≡ self.now }
    {
        Order {
            instrs: copy_of(self.instrs.as_slice()),
            order: copy_of(self.numbers()),
        }
    }

    /// Whether it is an order of this block, in time linear in its length.
    pub fn is_of(&self, block: &Block) -> bool
        ensures { IsTrue result ↔ (self.now.block ≡ instrs_of block.now) }
    {
        if self.instrs.len() != block.count() {
            return false;
        }
        for position in 0..block.count() {
            if self.instrs[position] != block.instr(position + 1) {
                return false;
            }
        }
        true
    }
}

/// The instructions of a block.
fn instrs_of(block: &Block) -> ArrayVec<Instr, BLOCK_LIMIT>
    ensures { result.items ≡ instrs_of block.now }
{
    let mut instrs = ArrayVec::new();
    for position in 0..block.count() {
        instrs.push(block.instr(position + 1));
    }
    instrs
}

/// The same items.
fn copy_of<T: Copy + Default>(items: &[T]) -> ArrayVec<T, BLOCK_LIMIT>
    requires { length items.now ≤ BLOCK_LIMIT }
    ensures { result.items ≡ items.now }
{
    let mut copy = ArrayVec::new();
    for item in items {
        copy.push(*item);
    }
    copy
}
