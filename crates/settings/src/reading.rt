// Settings from bytes: read field by field to the end or to the first fault. Assumes nothing.
ghost use Rattle.std.specs.Prelude.{◌≡◌, ◌+◌, ◌<◌, IfOk};
ghost use Rattle.std.specs.Range.{range_inclusive_contains};
ghost use Rattle.settings.specs.Layout.{entry_at, key_size};
ghost use Rattle.settings.specs.Faults.{header_fault};
ghost use Rattle.settings.specs.Fields.{bytes_in, checked_by};
ghost use Rattle.settings.specs.Reading.{header_read, address_field, all_zero, key_checked, range_read, entry_read, settings_read};

use crate::faults::{Cause, Fault, Field};
use crate::layout::{
    ENTRY, FIRST_AT, GATES_AT, HEADER, LAST_AT, LAST_GATES, LIFE_AT, MOST_AT, ONLY_VERSION,
    ONLY_WINDOW, OUTSIDE_AT, OWN_AT, VERSION_AT, WINDOW_AT,
};
use crate::plans::{Key, Plan, Settings};
use crate::ranges::Range;
use crate::reader::Reader;
use protocol::limits::{MAX_LIFE, MAX_MOST, MIN_LIFE, MIN_MOST};
use std::ops::RangeInclusive;

// What stands before the entries.
#[derive(Clone, Copy)]
pub struct Header {
    gates: u8,
    own: u8,
    life: u16,
    most: u32,
}

// A number before the entries, which must be there and lie between two others.
fn header_field<T: PartialOrd + Drop>(
    field: Field,
    number: Option<T>,
    allowed: RangeInclusive<T>,
) -> Result<T, Fault>
    ensures { result ≡ checked_by (range_inclusive_contains T.partial_cmp allowed) (header_fault field) number }
{
    let Some(number) = number else {
        return Err(Fault::in_header(field, Cause::Missing));
    };
    if allowed.contains(&number) {
        Ok(number)
    } else {
        Err(Fault::in_header(field, Cause::Wrong))
    }
}

// Where the entry of a gate begins.
fn entry_at(gate: u8) -> usize
    ensures { result ≡ entry_at gate }
{
    HEADER + ENTRY * usize::from(gate)
}

// Whether all bytes are 0.
fn all_zero(bytes: &[u8]) -> bool
    ensures { result ≡ all_zero bytes.now }
{
    bytes.iter().all(|byte| *byte == 0)
}

impl<'a> Reader<'a> {
    // What stands before the entries, or its first fault.
    #[tactic(auto, unfolding(crate::specs::Reading::header_read))]
    fn header(self) -> Result<Header, Fault>
        ensures { result ≡ header_read self.entry.bytes.now }
    {
        let version = self.byte(VERSION_AT);
        let _version = header_field(Field::Version, version, ONLY_VERSION..=ONLY_VERSION)?;
        let gates = header_field(Field::Gates, self.byte(GATES_AT), 1..=LAST_GATES)?;
        let own = header_field(Field::Own, self.byte(OWN_AT), 0..=gates - 1)?;
        let life = header_field(Field::Life, self.short(LIFE_AT), MIN_LIFE..=MAX_LIFE)?;
        let most = header_field(Field::Most, self.long(MOST_AT), MIN_MOST..=MAX_MOST)?;
        let window = self.short(WINDOW_AT);
        let _window = header_field(Field::Window, window, ONLY_WINDOW..=ONLY_WINDOW)?;
        Ok(Header {
            gates,
            own,
            life,
            most,
        })
    }

    // An address in a gate's entry, which must be there.
    fn address(self, field: Field, gate: u8, at: usize) -> Result<u32, Fault>
        requires { at < 44 }
        ensures { result ≡ address_field self.entry.bytes.now field gate at }
    {
        let Some(address) = self.long(entry_at(gate) + at) else {
            return Err(Fault::in_entry(field, gate, Cause::Missing));
        };
        Ok(address)
    }

    // The key of a gate's entry, which must be there, and zeros in the gate's own.
    fn gate_key(self, gate: u8, own: u8) -> Result<Key, Fault>
        ensures { result ≡ key_checked own gate (bytes_in self.entry.bytes.now (entry_at gate) key_size) }
    {
        let Some(key) = self.key(entry_at(gate)) else {
            return Err(Fault::in_entry(Field::Key, gate, Cause::Missing));
        };
        if gate == own && !all_zero(&key.bytes) {
            return Err(Fault::in_entry(Field::Key, gate, Cause::Wrong));
        }
        Ok(key)
    }

    // The range of a gate's entry, which must be there, a whole prefix, and no earlier gate's.
    #[tactic(auto, unfolding(crate::specs::Reading::range_read))]
    fn gate_range(self, gate: u8, plan: &Plan) -> Result<Range, Fault>
        ensures { result ≡ range_read self.entry.bytes.now plan.now gate }
    {
        let first = self.address(Field::Range, gate, FIRST_AT)?;
        let last = self.address(Field::Range, gate, LAST_AT)?;
        let range = Range { first, last };
        match plan.range_cause(range) {
            Some(cause) => Err(Fault::in_entry(Field::Range, gate, cause)),
            None => Ok(range),
        }
    }

    // The settings read so far with the entry of one gate more, or its first fault.
    #[tactic(auto, using(crate::proofs::Taken::range_free), unfolding(crate::specs::Reading::entry_read))]
    fn entry(self, gate: u8, settings: Settings) -> Result<Settings, Fault>
        requires { settings.plan.gates < 32 }
        ensures value { result ≡ entry_read self.entry.bytes.now gate settings }
        ensures gates { IfOk result (λ s. s.plan.gates ≡ settings.plan.gates + 1) }
    {
        let Settings {
            own,
            plan,
            mut keys,
        } = settings;
        let key = self.gate_key(gate, own)?;
        let range = self.gate_range(gate, &plan)?;
        let outside = self.address(Field::Outside, gate, OUTSIDE_AT)?;
        keys[usize::from(plan.gates())] = key;
        let plan = plan.with(range, outside);
        Ok(Settings { own, plan, keys })
    }
}

/// The settings that the bytes are. Refuses all other bytes, and says which field of which gate's
/// entry is the first that is wrong. It changes nothing.
pub fn read(bytes: &[u8]) -> Result<Settings, Fault>
    ensures value { result ≡ settings_read bytes.now }
{
    let reader = Reader::new(bytes);
    let header = reader.header()?;
    let mut settings = Settings {
        own: header.own,
        plan: Plan::empty(header.life, header.most),
        keys: [Key::default(); 32],
    };
    // The number is no index: the entry's faults name it, and a fold that can fail is no plainer.
    for gate in 0..header.gates {
        settings = reader.entry(gate, settings)?;
    }
    if bytes.len() != entry_at(header.gates) {
        return Err(Fault::in_header(Field::End, Cause::Wrong));
    }
    Ok(settings)
}
