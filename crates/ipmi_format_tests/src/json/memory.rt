//! Each call that makes a line, with ample memory and with requests refused.
use super::entries::{MEMORY, MEMORY_LINE, SENSORS};
use super::infos::{END_LINE, INFO, OTHER_INFO, SDR_INFO_LINE, SEL_INFO_LINE};
use super::inventories::{ELSEWHERE_LINE, HOST, MIXED, MIXED_LINE};
use super::records::{FAULT_LINE, FAULTY, FULL, HOT, OTHER, RAW_LINE, READ_LINE};
use crate::cases::{assert_line, assert_line_or_refused};
use ipmi_events::Sensors;
use ipmi_json::{
    end_line, fru_elsewhere_line, fru_line, sdr_fault_line, sdr_info_line, sdr_raw_line,
    sdr_record_line, sel_entry_line, sel_info_line,
};
use ipmi_records::{KnownReading, SdrFault, SdrView, SelView};
use std::alloc::{AllocError, Global};

/// The result of a call, and the expected line.
type Case = (Result<Vec<u8>, AllocError>, &'static str);

/// The bytes in hex digits.
fn decoded(alloc: Global, digits: &str) -> Result<Vec<u8>, AllocError> {
    match hex::decode(alloc, digits) {
        Ok(bytes) => Ok(bytes),
        Err(_) => Err(AllocError),
    }
}

fn entry_line(alloc: Global) -> Result<Vec<u8>, AllocError> {
    let sensors = Sensors::of(alloc, decoded(alloc, SENSORS)?)?;
    sel_entry_line(alloc, 2, &SelView::read(&MEMORY), Some(&sensors), &[])
}

fn record_line(alloc: Global) -> Result<Vec<u8>, AllocError> {
    let bytes = decoded(alloc, FULL)?;
    match SdrView::read(&bytes) {
        Ok(view) => sdr_record_line(alloc, 1, &view, KnownReading::Present(HOT), &[]),
        Err(_) => Err(AllocError),
    }
}

fn device_line(alloc: Global) -> Result<Vec<u8>, AllocError> {
    let bytes = decoded(alloc, MIXED)?;
    fru_line(alloc, 1, Some("P\"S\\U"), Some(&bytes), &[])
}

/// A case for each call.
fn cases(alloc: Global) -> [Case; 9] {
    [
        (entry_line(alloc), MEMORY_LINE),
        (record_line(alloc), READ_LINE),
        (
            sdr_fault_line(alloc, 3, SdrFault::Length, &FAULTY, &[]),
            FAULT_LINE,
        ),
        (sdr_raw_line(alloc, 8, 65535, &OTHER, &[]), RAW_LINE),
        (device_line(alloc), MIXED_LINE),
        (
            fru_elsewhere_line(alloc, Some("PSU1"), &[HOST]),
            ELSEWHERE_LINE,
        ),
        (sdr_info_line(alloc, &OTHER_INFO, &[]), SDR_INFO_LINE),
        (sel_info_line(alloc, &INFO, &[]), SEL_INFO_LINE),
        (end_line(alloc, 0, "finished", None, 65536, &[]), END_LINE),
    ]
}

/// With ample memory each call returns its line.
#[test]
fn not_always_out_of_memory(rt: HostRuntime) {
    for (got, wanted) in cases(rt.alloc()) {
        assert_line(&rt, got, wanted);
    }
}

/// With memory refused each call returns its line, or fails when out of memory.
#[test]
fn memory_may_be_refused(rt: HostRuntime) {
    for (got, wanted) in cases(rt.alloc()) {
        assert_line_or_refused(&rt, got, wanted);
    }
}
