//! A tool's output for a reply.
ghost use Rattle.std.specs.Prelude.{◌≡◌, ◌+◌, ◌-◌, ◌*◌, ◌/◌, ◌≤◌, [], ◌++◌, codes, length};
ghost use Rattle.ipmi_raw.specs.FreeIpmi.{received};
ghost use Rattle.ipmi_raw.specs.Ipmitool.{refusal};
ghost use Rattle.ipmi_raw.specs.Peer.{IsReplyText};
ghost use Rattle.ipmi_raw.specs.Words.{break_before, number, two_digits, word, words_from};
ghost use Rattle.ipmi_raw.specs.declared.tool.Tool.TheVariants.{FreeIpmi, Ipmitool};
ghost use Rattle.ipmi_command_tests.specs.Replied.{CanBePrinted};

use ipmi_raw::{Reply, ReplyText, Request, Tool, ipmitool};

/// Appends as many bytes as fit.
fn push(text: &mut ReplyText, bytes: &[u8])
    requires { length text.old.items + length bytes.now ≤ 1024 }
    ensures items { text.new.items ≡ text.old.items ++ bytes.now }
    ensures len { length text.new.items ≡ length text.old.items + length bytes.now }
{
    text.try_extend_from_slice(bytes).unwrap();
}

/// Appends a space and the two digits of a byte.
fn push_word(tool: Tool, text: &mut ReplyText, byte: u8)
    requires { length text.old.items + 3 ≤ 1024 }
    ensures items { text.new.items ≡ text.old.items ++ word tool byte }
    ensures len { length text.new.items ≡ length text.old.items + 3 }
{
    let digits = tool.digits();
    push(
        text,
        &[
            b' ',
            digits[usize::from(byte / 16)],
            digits[usize::from(byte % 16)],
        ],
    );
}

/// Appends the text before the word with this number.
fn push_break(tool: Tool, text: &mut ReplyText, i: usize)
    requires { length text.old.items + 1 ≤ 1024 }
    ensures items { text.new.items ≡ text.old.items ++ break_before tool i }
    ensures len { length text.new.items + (i - 1) / 16 ≤ length text.old.items + i / 16 }
{
    if tool == Tool::Ipmitool && 0 < i && i % 16 == 0 {
        push(text, b"\n");
    }
}

/// Appends the words of bytes, and the end of the text.
fn push_words(tool: Tool, text: &mut ReplyText, bytes: &[u8])
    requires { length text.old.items + 3 * length bytes.now + length bytes.now / 16 + 4 ≤ 1024 }
    ensures { text.new.items ≡ text.old.items ++ words_from tool 0 bytes.now }
{
    for i in 0..bytes.len() {
        push_break(tool, text, i);
        push_word(tool, text, bytes[i]);
    }
    push(text, tool.ending());
}

/// Appends a byte like `%x` in C: without a leading zero.
fn push_number(tool: Tool, text: &mut ReplyText, byte: u8)
    requires { length text.old.items + 2 ≤ 1024 }
    ensures items { text.new.items ≡ text.old.items ++ number tool byte }
    ensures len { length text.new.items ≤ length text.old.items + 2 }
{
    let digits = tool.digits();
    if byte < 16 {
        push(text, &[digits[usize::from(byte)]]);
    } else {
        push(
            text,
            &[
                digits[usize::from(byte / 16)],
                digits[usize::from(byte % 16)],
            ],
        );
    }
}

/// Appends ipmitool's output for a completion code, and the end mark.
fn push_refused(request: Request, code: u8, text: &mut ReplyText)
    requires empty { text.old.items ≡ [] }
    ensures { text.new.items ≡ ((refusal request ++ codes " rsp=0x") ++ number Ipmitool code) ++ codes "): Unknown\n. \n" }
{
    push(text, ipmitool::refusal(request).as_slice());
    push(text, b" rsp=0x");
    push_number(Tool::Ipmitool, text, code);
    push(text, b"): Unknown\n. \n");
}

/// Appends ipmitool's output for a reply, and the end mark.
fn push_ipmitool(request: Request, reply: &Reply, text: &mut ReplyText)
    requires empty { text.old.items ≡ [] }
    requires can { CanBePrinted reply.now }
    ensures { IsReplyText Ipmitool request reply.now text.new.items }
{
    match reply {
        Reply::Data(bytes) => push_words(Tool::Ipmitool, text, bytes.as_slice()),
        Reply::Refused(code) => push_refused(request, *code, text),
        Reply::Silent => {
            push(text, ipmitool::refusal(request).as_slice());
            push(text, b")\n. \n");
        }
    }
}

/// Appends the output of FreeIPMI's tool for a completion code and data.
fn push_received(request: Request, code: u8, bytes: &[u8], text: &mut ReplyText)
    requires empty { text.old.items ≡ [] }
    requires few { length bytes.now ≤ 255 }
    ensures { text.new.items ≡ received request code bytes.now }
{
    push(text, b"rcvd:");
    push_word(Tool::FreeIpmi, text, request.command());
    push_word(Tool::FreeIpmi, text, code);
    push_words(Tool::FreeIpmi, text, bytes);
}

/// Appends the output of FreeIPMI's tool for a reply.
#[tactic(auto, using(crate::proofs::PrintedLemmas::refused_by_freeipmi))]
fn push_freeipmi(request: Request, reply: &Reply, text: &mut ReplyText)
    requires empty { text.old.items ≡ [] }
    requires can { CanBePrinted reply.now }
    ensures { IsReplyText FreeIpmi request reply.now text.new.items }
{
    match reply {
        Reply::Data(bytes) => push_received(request, 0, bytes.as_slice(), text),
        Reply::Refused(code) => push_received(request, *code, &[], text),
        Reply::Silent => push(text, b"ipmi_cmd_raw: session timeout\n"),
    }
}

/// Replaces the text with the tool's output for a reply to the request.
pub fn print_reply(tool: Tool, request: Request, reply: &Reply, text: &mut ReplyText)
    requires { CanBePrinted reply.now }
    ensures { IsReplyText tool request reply.now text.new.items }
{
    text.clear();
    match tool {
        Tool::Ipmitool => push_ipmitool(request, reply, text),
        Tool::FreeIpmi => push_freeipmi(request, reply, text),
    }
}
