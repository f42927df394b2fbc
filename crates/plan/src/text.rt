// A plan as text: life, most, and then a line for each gate. Its reader stays beside that of crate
// draft, since neither can be the other: this one also takes zeros in front of numbers, names of
// any length and Unicode's blanks, and that one bytes that are no text. Assumes nothing.
use crate::addresses::{parse_address, parse_prefix};
use crate::faults::TextFault;
use protocol::limits::{MIN_LIFE, MIN_MOST};
use settings::Plan;
use std::alloc::Global;
use std::array;

/// A plan as far as its text was read, with the names of its gates in the order of their numbers.
#[derive(Drop)]
pub struct Draft {
    life: Option<u16>,
    most: Option<u32>,
    plan: Option<Plan>,
    pub names: Vec<String>,
}

// Whether a name can be that of a file: letters, digits, - and _.
fn is_name(text: &str) -> bool {
    text.bytes().all(|byte| byte.is_ascii_alphanumeric() || byte == b'-' || byte == b'_')
}

impl Draft {
    /// A draft of which nothing was read.
    pub fn new(heap: Global) -> Self {
        Draft {
            life: None,
            most: None,
            plan: None,
            names: Vec::new(heap),
        }
    }

    /// The plan, where life, most and at least one gate were read.
    pub fn plan(&self) -> Option<Plan> {
        self.plan
    }

    /// Takes one line. Refuses a line that is none of a plan's, and then changes nothing.
    pub fn take_line(&mut self, heap: Global, line: &str) -> Result<(), TextFault> {
        let mut words = line.split_whitespace();
        let Some(first) = words.next() else {
            return Ok(());
        };
        if first.starts_with('#') {
            return Ok(());
        }
        let others: [_; 4] = array::from_fn(|_| words.next());
        match (first, others) {
            ("life", [Some(life), None, None, None]) => self.take_life(life),
            ("most", [Some(most), None, None, None]) => self.take_most(most),
            (number, [Some(name), Some(prefix), Some(outside), None]) => {
                self.take_gate(heap, number, name, prefix, outside)
            }
            _ => Err(TextFault::Columns),
        }
    }

    // Takes life, once and before the first gate. Beside `take_most`, since each has a field, a type
    // and a parameter of `Plan::new` of its own.
    fn take_life(&mut self, text: &str) -> Result<(), TextFault> {
        if self.life.is_some() || self.plan.is_some() {
            return Err(TextFault::Twice);
        }
        let life = text.parse().ok().ok_or(TextFault::NotNumber)?;
        let _allowed = Plan::new(life, MIN_MOST)?;
        self.life = Some(life);
        Ok(())
    }

    fn take_most(&mut self, text: &str) -> Result<(), TextFault> {
        if self.most.is_some() || self.plan.is_some() {
            return Err(TextFault::Twice);
        }
        let most = text.parse().ok().ok_or(TextFault::NotNumber)?;
        let _allowed = Plan::new(MIN_LIFE, most)?;
        self.most = Some(most);
        Ok(())
    }

    // The plan to which the next gate is added.
    fn begun(&self) -> Result<Plan, TextFault> {
        match (self.plan, self.life, self.most) {
            (Some(plan), _, _) => Ok(plan),
            (None, Some(life), Some(most)) => Ok(Plan::new(life, most)?),
            _ => Err(TextFault::TooEarly),
        }
    }

    // The name, copied, where it may be a gate's and no gate before has it.
    fn new_name(&self, heap: Global, text: &str) -> Result<String, TextFault> {
        if !is_name(text) {
            return Err(TextFault::NotName);
        }
        match self.names.iter().position(|name| name.as_str() == text) {
            Some(gate) => Err(TextFault::SameName(gate)),
            None => Ok(String::from_str(heap, text)?),
        }
    }

    fn take_gate(
        &mut self,
        heap: Global,
        number: &str,
        name: &str,
        prefix: &str,
        outside: &str,
    ) -> Result<(), TextFault> {
        let plan = self.begun()?;
        let next = plan.gates();
        if number.parse().ok() != Some(next) {
            return Err(TextFault::NotNext(next));
        }
        let name = self.new_name(heap, name)?;
        let range = parse_prefix(prefix).ok_or(TextFault::NotPrefix)?;
        let outside = parse_address(outside).ok_or(TextFault::NotAddress)?;
        let plan = plan.add(range, outside)?;
        self.names.push(name)?;
        self.plan = Some(plan);
        Ok(())
    }
}
