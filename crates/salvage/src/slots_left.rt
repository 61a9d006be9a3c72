// The slots of a table, from the lowest up, each kept or cleared where it stands.
ghost use Rattle.std.specs.Prelude.{◌≡◌, [], ◌∷◌, true, ◌+◌, ◌<◌, ◌≤◌, length};
ghost use Rattle.codes.specs.Codes.{finding_meant};
ghost use Rattle.profile.specs.Bytes.{over};
ghost use Rattle.profile.specs.Table.{slot_count, whole_slots};
ghost use Rattle.profile.specs.Salvage.{cleared as cleared_of, findings_of, left_of, report_of};
ghost use Rattle.salvage.specs.Salvages.{Settled};

use codes::finding::Finding;
use profile::sizes::SLOT_BYTES;

// Slot i, kept or cleared by what is found of it.
fn settle(t: &mut [u8], i: usize) -> Finding
    requires { (whole_slots t.old ≡ true) × (i < slot_count t.old) }
    ensures { Settled i t.old (finding_meant result) t.new }
{
    let found = crate::finding::find(t, i);
    if found != Finding::Kept {
        changes::wipe_slot(t, i);
    }
    found
}

// How many slots are cleared, with one more of which this is found: every one but those that are kept.
fn counted(cleared: u16, found: Finding) -> u16
    requires { cleared < 65535 }
    ensures { result ≡ cleared + cleared_of (finding_meant found ∷ []) }
{
    cleared + u16::from(found != Finding::Kept)
}

// All slots. The report gets a byte for each, and those cleared are counted.
pub(crate) fn leave_slots(t: &mut [u8], report: &mut [u8]) -> u16
    requires { (whole_slots t.old ≡ true) × (slot_count t.old ≤ length report.old) }
    ensures { (result ≡ cleared_of (findings_of t.old)) × (t.new ≡ left_of t.old) × (report.new ≡ over (report_of t.old) report.old) }
{
    let n = t.len() / SLOT_BYTES;
    let mut cleared: u16 = 0;
    for (i, told) in report[..n].iter_mut().enumerate() {
        let found = settle(t, i);
        *told = found.byte();
        cleared = counted(cleared, found);
    }
    cleared
}
