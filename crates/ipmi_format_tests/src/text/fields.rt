//! The texts of fields: of an inventory by their code and language, and of a record by their type/length byte.
use crate::cases::{assert_text, byte_of, bytes_of, three_parts};
use ipmi_text::{fru_text, sdr_text};
use std::alloc::Global;
use std::process::Abort;

/// `code and language|bytes|text`.
const FRU_FIELDS: &str = "0200|29dca6|IPMI
0200|29dc|IP
0200|29|I
0200||
0200|ffffff|____
0200|000000|    
0200|01|!
0200|0004| 0
0200|80| 
0219|21|A
0219|a108|AB
0219|a13802|ABC 
0219|a13892|ABCD
0219|68c9b22f|HELLO
0219|7329dba50c|SERVER
0219|e21bca640345|BOARD-01
0219|66e80212|FAN 2
0219|f05c47|PSU1
0219|50244d54655d5806|0123456789
0219|81301085712089b2308df300|!\"#$%&'()*+,-./ 
0219|e0cef7fe0f|@[\\]^_
0219|7028d380fb3a00253521|PART NO. 42-A
0219|baaeebbaaeebbaaeebbaaeeb|ZZZZZZZZZZZZZZZZ
0200|a54dca18|EVDR8
0200|2530bb1d6d|E SN=T
0200|132cded6237b2e|3PBW6/R>N
0200|d91e3f721fcb1971174494|9[Q/R]QR9$W%$1
0200|d6493c9d5c3460be31201e69fedaa0eee8|6G$/=R%-@Y;,@X1:^K-HNC
0200|b9997f5c7c2999fdafe593253cd654af4dfad71427a0aeb3fee9232f8af2|YFY?<Q7*9V_KE/9)\\8-5OVD^73Q)@ZZL^G^(OHH\\
0200|\
    211f9ee491c5b10becb5563bfc1e6f93427ecbc8fe2955e5cd8e46dc8ed4b7c2764d2a5a4d767706f85d8690024ad6bda3401be9c8cbccc935\
    f6cd1f61226a|A\\AGD'9QQN [U:U.\\[Q;3*D?+CL_I45Y-[H1<[(UW*L=-IB6-9W=&@?7&\"I *9=OC\"T&IC\\R,G<-VW\\'A)B:
0100|123b|123-
0100||
0100|00|00
0100|0123456789|0123456789
0100|abcdef| -.:,_
0100|a0| 0
0100|0a|0 
0100|ff|__
0100|1234567890|1234567890
0100|12c340|12.340
0100|2024b01b31|2024-01-31
0100|ca|. 
0100|ab| -
0100|19d590|19:590
0100|f1f2|_1_2
0119|e15338|,15338
0119|ae1a34004d33| ,1 34004:33
0119|ba0d246ac04c81b1baf23e3b|- 0:246 .04.81-1- _23,3-
0119|f9eef5f79f2b4934af87f5520b69b94b0d982e85|_9,,_5_79_2-4934 _87_5520-69-94-0:982,85
0119|\
    bb55b672a872637acd7466fcb60e0e8ff18463b0e4b2ba29703474f064ac68f700f5b02b3dc666f45bdeaa2ccaedcd2b5157410e4dee4af2b3\
    4f430a073447|\
    --55-672 872637 .:7466_.-60,0,8__18463-0,4-2- 29703474_064 .68_700_5-02-3:.666_45-:,  2.. ,:.:2-5157410,4:,,4 _2-34\
    _430 073447
0000||
0000|00|00
0000|abcd|abcd
0000|0123456789abcdef|0123456789abcdef
0300|41e90042|Aé
0319|41e90042|Aé
0300||
0300|00|
0319|1f207e7f|. ~.
0300|80819e9fa0a1ff|.... ¡ÿ
0319|c3a9|Ã©
0300|4142430a44|ABC.D
0301|41e90042|41e90042
0302|00|00
0318|41|41
031a|41|41
03ff|4100|4100";

/// `type/length byte|bytes after it|text`.
const ID_STRINGS: &str = "84|29dca6|IPMI
84|29dc|IP
43|123b|123
02|abcd|abcd
80|29dca6|
81|29dca6|I
82|29dca6|IP
83|29dca6|IPM
85|29dca6|IPMI
9f|a13892a579a2a9bab2adfbc2b13cd3b57de3b90e|ABCDEFGHIJKLMNOPQRSTU
95|a13892a579a2a9bab2adfbc2b13cd3b57de3b90e|ABCDEFGHIJKLMNOPQRSTU
96|a13892a579a2a9bab2adfbc2b13cd3b57de3b90e|ABCDEFGHIJKLMNOPQRSTU
a4|29dca6|IPMI
40|123b|
41|123b|1
42|123b|12
44|123b|123-
45|123b|123-
5f|0101010101010101010101010101010199|0101010101010101010101010101010
5f|0101010101010101010101010101010101010101|0101010101010101010101010101010
60|123b|
00|abcd|
01|abcd|ab
03|abcd|abcd
10|4142434445464748494a4b4c4d4e4f505152535455565758595a5b5c5d5e5f|4142434445464748494a4b4c4d4e4f50
11|4142434445464748494a4b4c4d4e4f505152535455565758595a5b5c5d5e5f|4142434445464748494a4b4c4d4e4f50
1f|4142434445464748494a4b4c4d4e4f505152535455565758595a5b5c5d5e5f|4142434445464748494a4b4c4d4e4f50
c0|41|
c8|4350552054656d70|CPU Temp
c3|4350552054656d70|CPU
c9|4350552054656d70|CPU Temp
d0|4142434445464748494a4b4c4d4e4f505152535455565758595a5b5c5d5e5f|ABCDEFGHIJKLMNOP
d1|4142434445464748494a4b4c4d4e4f505152535455565758595a5b5c5d5e5f|ABCDEFGHIJKLMNOP
df|4142434445464748494a4b4c4d4e4f505152535455565758595a5b5c5d5e5f|ABCDEFGHIJKLMNOP
c4|41e90042|Aé
c2||
e3|414243|ABC";

fn assert_fru_field(rt: &impl Abort, alloc: Global, line: &str) {
    let (head, digits, wanted) = three_parts(rt, line);
    let (code, language) = head.split_at_checked(2).expect(rt, line);
    let code = byte_of(rt, code);
    assert!(rt; code < 4, "{line}: code {code}");
    let bytes = bytes_of(rt, alloc, digits);
    let text = fru_text(alloc, code, byte_of(rt, language), &bytes);
    assert_text(rt, text, wanted, line);
}

fn assert_id_string(rt: &impl Abort, alloc: Global, line: &str) {
    let (type_length, digits, wanted) = three_parts(rt, line);
    let bytes = bytes_of(rt, alloc, digits);
    let text = sdr_text(alloc, byte_of(rt, type_length), &bytes);
    assert_text(rt, text, wanted, line);
}

#[test]
fn each_field_of_an_inventory_has_its_text(rt: HostRuntime) {
    for line in FRU_FIELDS.lines() {
        assert_fru_field(&rt, rt.alloc(), line);
    }
}

#[test]
fn each_id_string_has_its_text(rt: HostRuntime) {
    for line in ID_STRINGS.lines() {
        assert_id_string(&rt, rt.alloc(), line);
    }
}
