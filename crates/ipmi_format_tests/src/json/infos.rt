//! Infos, and the end of a listing.
use crate::cases::assert_line;
use ipmi_json::{end_line, sdr_info_line, sel_info_line};

/// Version 51h, 12 records, 15,000 bytes free, an addition in 2020, no erase, an overflow.
pub(crate) const INFO: [u8; 14] = [
    0x51, 0x0c, 0x00, 0x98, 0x3a, 0x00, 0x10, 0x5e, 0x5f, 0x00, 0x00, 0x00, 0x00, 0x82,
];

pub(crate) const SEL_INFO_LINE: &str =
    r#"{"object":"sel_info","version":81,"record_count":12,"free_space":15000,"last_addition":"2020-09-13T12:26:40Z","last_addition_raw":1600000000,"last_erase":null,"last_erase_raw":0,"overflow":true,"operation_support":130}"#;

/// The same with an erase at that time, no addition, and bit 7 of the last byte clear.
pub(crate) const OTHER_INFO: [u8; 14] = [
    0x51, 0xff, 0xff, 0x00, 0x00, 0xff, 0xff, 0xff, 0xff, 0x00, 0x10, 0x5e, 0x5f, 0x2f,
];

pub(crate) const SDR_INFO_LINE: &str =
    r#"{"object":"sdr_info","version":81,"record_count":65535,"free_space":0,"last_addition":null,"last_addition_raw":4294967295,"last_erase":"2020-09-13T12:26:40Z","last_erase_raw":1600000000,"overflow":false,"operation_support":47}"#;

pub(crate) const END_LINE: &str =
    r#"{"object":"end","status":0,"reason":"finished","message":null,"count":65536}"#;

const FAILED_LINE: &str =
    r#"{"object":"end","status":3,"reason":"refused","message":"the \"controller\"\nis busy","count":0}"#;

#[test]
fn infos(rt: HostRuntime) {
    assert_line(&rt, sel_info_line(rt.alloc(), &INFO, &[]), SEL_INFO_LINE);
    assert_line(
        &rt,
        sdr_info_line(rt.alloc(), &OTHER_INFO, &[]),
        SDR_INFO_LINE,
    );
}

#[test]
fn ends(rt: HostRuntime) {
    assert_line(
        &rt,
        end_line(rt.alloc(), 0, "finished", None, 65536, &[]),
        END_LINE,
    );
    let message = Some("the \"controller\"\nis busy");
    assert_line(
        &rt,
        end_line(rt.alloc(), 3, "refused", message, 0, &[]),
        FAILED_LINE,
    );
}
