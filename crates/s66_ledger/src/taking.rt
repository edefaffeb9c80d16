//! What is taken back before a search goes on alone: allowances, nodes that are out, and whole orders among the nodes.

use crate::ledger::Ledger;
use s66_time::{Order, time_of};
use std::alloc::AllocError;

impl Ledger<'_> {
    ghost use Rattle.std.specs.Prelude.{◌<◌, ◌≤◌, length, OnOk};
    ghost use Rattle.s66_model.specs.{total_of, IsLegal, best_time};
    ghost use Rattle.s66_ledger.specs.{Leads, IsIdle, WholesAreTimed, IsOffering, IsReopening, IsTiming};

    /// Takes back every allowance and every node that is out. If some node is out, this takes time linear in the number of nodes,
    /// with a logarithm of the number of open nodes for each that is.
    pub(crate) fn take_back(&mut self) -> Result<(), AllocError>
        requires { 1 ≤ self.old.workers }
        ensures leads { Leads self.old self.new }
        ensures idle { OnOk result (IsIdle self.new.state) }
    {
        for at in 0..self.machine.workers() {
            self.retire(at + 1)?;
        }
        if self.machine.has_none_out() {
            return Ok(());
        }
        for node in 0..self.node_count() {
            self.reopen(node)?;
        }
        Ok(())
    }

    /// Takes a node back if it is out, as worker 1.
    fn reopen(&mut self, node: u32) -> Result<(), AllocError>
        requires { 1 ≤ self.old.workers }
        ensures leads { Leads self.old self.new }
        ensures ok { OnOk result (IsReopening self.old node self.new) }
    {
        if self.machine.is_out(node) {
            self.give_back(node)?;
        }
        Ok(())
    }

    /// Offers every whole order that is open or out and has a time below the best; what is offered is timed anew. If some prefix
    /// that has been open or out was that long, this takes time linear in the number of nodes, and in the length of each order
    /// that is offered.
    pub(crate) fn offer_wholes(&mut self) -> Result<(), AllocError>
        requires { 1 ≤ self.old.workers }
        ensures offers { IsOffering self.old self.new }
        ensures timed { OnOk result (WholesAreTimed self.new.problem self.new.state) }
    {
        if self.machine.has_no_whole() {
            return Ok(());
        }
        for node in 0..self.node_count() {
            self.offer_whole(node)?;
        }
        Ok(())
    }

    /// Offers a node's order if it is a whole one, open or out, and has a time below the best.
    fn offer_whole(&mut self, node: u32) -> Result<(), AllocError>
        requires workers { 1 ≤ self.old.workers }
        requires within { node < length self.old.state.nodes }
        ensures offers { IsOffering self.old self.new }
        ensures timed { OnOk result (IsTiming self.old node self.new) }
    {
        if let Some(numbers) = self.machine.promising_order(node) {
            self.offer_numbers(numbers.as_slice())?;
        }
        Ok(())
    }

    /// Times a legal order and offers it as worker 1. It is a function of its own so that no room is made for what isn't offered.
    fn offer_numbers(&mut self, numbers: &[u8]) -> Result<(), AllocError>
        requires workers { 1 ≤ self.old.workers }
        requires legal { IsLegal self.old.problem.block numbers.now }
        ensures offers { IsOffering self.old self.new }
        ensures at_most { OnOk result (best_time self.new.problem self.new.state ≤
            total_of self.old.problem numbers.now) }
    {
        let block = self.block();
        let Ok(order) = Order::new(block, numbers) else {
            unreachable!()
        };
        let timed = time_of(block, self.profile(), &order);
        self.offer_order(timed)?;
        Ok(())
    }
}
