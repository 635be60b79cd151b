//! The assignment under which a line's hints are followed.
ghost use Rattle.std.specs.Prelude.{◌≡◌, ◌+◌, ◌<◌, false, IfOk, OnOk, IsTrue, ◌↔◌, vec_len};
ghost use Rattle.heesch_cnf.specs.Literals.{held, lit_value, with_true};
ghost use Rattle.heesch_rup.specs.Assigned.{all_open, HavePlaces, OthersAreOpen};

use heesch_cnf::Lit;
use heesch_io::NoMemory;
use std::alloc::Global;

/// Values of variables. To open them all again costs as much as it did to assign them.
#[derive(Drop)]
pub struct Assignment {
    pub values: Vec<Option<bool>>,
    pub assigned: Vec<u32>,
    ghost places: { HavePlaces values.items assigned.items },
    ghost others_open: { OthersAreOpen values.items assigned.items },
}

/// Opens these variables.
fn open_each(values: &mut [Option<bool>], variables: &[u32])
    requires places { HavePlaces values.old variables.now }
    requires others_open { OthersAreOpen values.old variables.now }
    ensures { held values.new ≡ all_open }
{
    for variable in variables {
        values[*variable as usize] = None;
    }
}

impl Assignment {
    /// The variables 0 to `vars`, all open.
    pub fn new(alloc: Global, vars: u32) -> Result<Assignment, NoMemory>
        ensures room { IfOk result (λ a. vec_len a.values ≡ vars + 1) }
        ensures open { IfOk result (λ a. held a.values.items ≡ all_open) }
    {
        Ok(Assignment {
            values: vec![in alloc; None; vars as usize + 1]?,
            assigned: Vec::new(alloc),
        })
    }

    /// The value of a literal.
    pub fn value(&self, lit: Lit) -> Option<bool>
        requires { lit.var < vec_len self.now.values }
        ensures { result ≡ lit_value (held self.now.values.items) lit }
    {
        match self.values[lit.var as usize] {
            None => None,
            Some(value) => Some(value == lit.positive),
        }
    }

    /// Whether a literal is false.
    pub fn is_false(&self, lit: Lit) -> bool
        requires { lit.var < vec_len self.now.values }
        ensures { IsTrue result ↔ (lit_value (held self.now.values.items) lit ≡ Some false) }
    {
        matches!(self.value(lit), Some(false))
    }

    /// Makes the literal true.
    pub fn assign(&mut self, lit: Lit) -> Result<(), NoMemory>
        requires { lit.var < vec_len self.old.values }
        ensures room { vec_len self.new.values ≡ vec_len self.old.values }
        ensures ok { OnOk result (held self.new.values.items ≡ with_true lit (held self.old.values.items)) }
    {
        self.assigned.push(lit.var)?;
        self.values[lit.var as usize] = Some(lit.positive);
        Ok(())
    }

    /// Opens all variables, at the cost of as many steps as were assigned.
    pub fn reset(&mut self)
        ensures room { vec_len self.new.values ≡ vec_len self.old.values }
        ensures open { held self.new.values.items ≡ all_open }
    {
        open_each(&mut self.values, &self.assigned);
        self.assigned.clear();
    }
}
