//! Texts with a fault: a run answers the fault, and calls neither device. What is promised of a run lets `Memory` stand
//! in place of a refusal. Here it is seen that memory isn't lacking.

use crate::games::{NAMES, repeated};
use crate::watched::Watched;
use ps_devices::{MemoryReader, MemoryWriter};
use ps_model::{Fault, FaultKind};
use ps_run::{RunFault, run};
use std::process::Abort;

/// Runs a text with a fault: that is the answer, and neither device was called.
fn expect_refused(rt: &(impl Abort + AllocGlobal), text: &[u8], kind: FaultKind, line: u32) {
    let mut reader = Watched::new(MemoryReader::new(b"dq", 1, None));
    let writer = MemoryWriter::new(rt.alloc(), 100, 100).expect(rt, "memory for the output");
    let mut writer = Watched::new(writer);
    let answer = run(rt.alloc(), text, &mut reader, &mut writer);
    assert_eq!(rt; answer, Err(RunFault::Refused(Fault { kind, line })));
    assert_eq!(rt; reader.calls, 0);
    assert_eq!(rt; writer.calls, 0);
}

#[test]
fn a_small_text_is_refused_for_its_fault(rt: HostRuntime) {
    let text = repeated(
        &rt,
        "title T\n",
        NAMES,
        1,
        "RULES\n[ A ] -> [ X ]\nLEVELS\nP?\n",
    );
    expect_refused(&rt, text.as_bytes(), FaultKind::UnknownWord, 30);
}

/// A text of over 100,000 bytes, whose fault stands in its last line.
#[test]
fn a_fault_is_found_at_the_end_of_a_large_text(rt: HostRuntime) {
    let comment = repeated(&rt, "title T\n(", "comment\n", 12_500, ")\n");
    let text = repeated(&rt, comment.as_str(), NAMES, 1, "LEVELS\nP?\n");
    expect_refused(&rt, text.as_bytes(), FaultKind::UnknownGlyph, 12_531);
}

#[test]
fn a_text_beyond_a_limit_is_refused(rt: HostRuntime) {
    let text = repeated(&rt, "", "(", 1_048_577, "");
    expect_refused(&rt, text.as_bytes(), FaultKind::TooLong, 1);
}
