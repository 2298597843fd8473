//! Whole inventories and their texts. The longer ones were put together by hand, area by area.
use crate::cases::{assert_text_with_end, bytes_of_lines};
use ipmi_fru::print_fru;
use std::alloc::Global;
use std::process::Abort;

/// The bytes of an inventory, area by area or record by record, then a line of dashes, then the text. An empty line
/// ends a case.
const INVENTORIES: &str = "01000001000000fe0103000100008329dca642123bc441e90042c1000000004e
--
Board fault: checksum

01000001000000ff0103000100008329dca642123bc441e90042c1000000004d
--
FRU fault: header checksum

01000100000000fe010117c100000026
--
Chassis Type: Rack Mount Chassis

01000100000000fe010117c500000022
--
Chassis fault: field past end

01000100000000fe
--
Chassis fault: outside

01000100000000fe020117c100000026
--
Chassis fault: version

01000100000000fe010017c100000026
--
Chassis fault: length

01000000010000fe010219c24142c24344c1000000000095
--
Product Manufacturer: AB
Product Name: CD

01000000000100fe01820d432d01b0043c003c007800000024
--
Record fault: outside

01000000000100fe01820d432e01b0043c003c007800000024f4
--
Record fault: header checksum

01000000000100fe01820d432d01b0043c003c007800000024f5
--
Record fault: data checksum

01000000000100fe0302029e5b0161c0820000be
--
Management Access 0x01: a
Record 0xc0:\x20

010102070d0000e8
0111223344556677
010517c743482d3130303085b30b419404c4426c75650200ff452024b01b31c100000000000000f4
01060011f6d1c441434d4586e21bca2480474312c500c7502f4e20b52d3702c0dec55265762041836c38d3c10000007a
010a19c441434d45cb536572766572203230303086b36c371204414201c28678aeeb399041cf5261636b20372c20756e69742031320101c7657874\
    72612031c765787472612032c10000000000000093
--
Chassis Type: Rack Mount Chassis
Chassis Part Number: CH-1000
Chassis Serial: SN0042
Chassis Extra: Blue
Chassis Extra: 00ff
Chassis Extra: 2024-01-31
Board Mfg Date: 2022-02-28 13:37
Board Mfg: ACME
Board Product: BOARD X1
Board Serial: 12.500
Board Part Number: P/N µ-7
Board FRU ID: c0de
Board Extra: Rev A
Board Extra: LAST
Product Manufacturer: ACME
Product Name: Server 2000
Product Part Number: SRV-2000
Product Version: 01.2
Product Serial: XYZZY 90
Product Asset Tag: Rack 7, unit 12
Product FRU ID: 01
Product Extra: extra 1
Product Extra: extra 2

01000103060000f5
010201c24142c0c10000000000000036
010309a00500c2414282a108411201abc0c100000000005e
010218c54772fcdf650082ef0ac100eb
--
Chassis Type: Other
Chassis Part Number: AB
Board Mfg Date: 1996-01-02 00:00
Board Mfg: 4142
Board Product: AB
Board Serial: 12
Board Part Number: ab
Product Manufacturer: 4772fcdf65
Product Part Number: OK

01000102050000f7
010100c000c1007d
0103000000008040c000c0c6626568696e64c100000000cb
010100c10000003d
--
Chassis Type: type 0x00
Board Mfg Date: unspecified
Board Extra: behind

01000806010000f0
010500c441434d45c56162006364c3006364c6617f809fa062c87461620968657265c10000000013
010200ffffffc25a3102c1c182ef0ab4
01011d01c1c0005f
--
Chassis Type: type 0x1d
Chassis Part Number: c1
Board Mfg Date: 2027-11-24 20:15
Board Mfg: Z1
Board Product: c1c1
Board Serial: OK
Product Manufacturer: ACME
Product Name: ab
Product Version: a...\u{a0}b
Product Serial: tab.here

01000000000100fe
000218ecfa000102030405060708090a0b0c0d0e0f1011121314151617
01020dbb358350fb14fb8cfb32000000a00f
01020d17d902f901e0010d02ffff0100ffff
02020ddb14914a012c01ffff00000a001400
03020a17da01687474703a2f2f612f
030204995e06e90078
030203f602070102
0302033dbb006162
030201fdfd03
03020000fb
01020cea0701b0043c003c007800000071
02020fea0301b0043c003c00780000007102ffff
0002040dedf401ffff
04020639bbc10000010203
050204bf36c1000080
c00205c8715a3100beef
ff8f000072
c1820210ab7878
--
Record 0x00: 000102030405060708090a0b0c0d0e0f1011121314151617
DC Output 3 standby: nominal -12 V, negative deviation -12.6 V, positive deviation -11.4 V, ripple 50 mV, \
    current 0 to 4000 mA
DC Output 2: nominal 5.05 V, negative deviation 4.8 V, positive deviation 5.25 V, ripple 65535 mV, current 1 to 65535 mA
DC Load 1: nominal 3.3 V, 3 to -0.01 V, ripple 0 mV, current 10 to 20 mA
Management Access 0x01: http://a/
Management Access 0x06: é
Management Access 0x07: 0102
Management Access 0x00: 6162
Management Access 0x03:\x20
Record 0x03:\x20
Record 0x01: 01b0043c003c007800000071
DC Load 1: nominal 12 V, 0.6 to 0.6 V, ripple 120 mV, current 0 to 625 mA
Record 0x00: f401ffff
Record 0x04: c10000010203
Record 0x05: c1000080
Record 0xc0: 5a3100beef
Record 0xff:\x20

01000100000200fc
010111c10000002c
01020df2fe0fff7f0080010000000000000002820d026dff00000a00f6ff000000000000
--
Chassis Type: Main Server Chassis
DC Output 15: nominal 327.67 V, negative deviation -327.68 V, positive deviation 0.01 V, ripple 0 mV, current 0 to 0 mA
DC Load 15: nominal 0 V, 0.1 to -0.1 V, ripple 0 mV, current 0 to 0 mA

01000102040600f2
010117c24142c161
010200006621c241423f0000000000f2
010200c441434d45c100000000000062
c00201ff3e01c002010000c08201febf02
--
Chassis fault: checksum
Board fault: field past end
Product Manufacturer: ACME
Record 0xc0: 01
Record fault: header checksum";

fn assert_inventory_text(rt: &impl Abort, alloc: Global, case: &str) {
    let (areas, wanted) = case.split_once("\n--\n").expect(rt, case);
    let bytes = bytes_of_lines(rt, alloc, areas);
    assert_text_with_end(rt, print_fru(alloc, &bytes), wanted, "\n", case);
}

#[test]
fn each_inventory_has_its_text(rt: HostRuntime) {
    for case in INVENTORIES.split("\n\n") {
        assert_inventory_text(&rt, rt.alloc(), case);
    }
}
