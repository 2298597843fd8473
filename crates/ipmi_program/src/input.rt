//! The input of a program: its command-line words and its image.
ghost use Rattle.std.specs.Prelude.{◌≡◌, ◌⊎◌, ◌<◌, ◌≤◌, IfErr, IfOk, IfSome, Some, length, map, option_map, string_bytes, vec_len};
ghost use Rattle.std.specs.IoError.{error_kind};
ghost use Rattle.ipmi_command_line.specs.declared.command.UsageFault.{UsageFault};
ghost use Rattle.ipmi_program.specs.Input.{input_fault_words, input_name, IsFaultOf, named};
ghost use Rattle.ipmi_program.specs.declared.input.InputFault.{InputFault};

use ipmi_command_line::{UsageFault, Word, Words};
use std::alloc::{AllocError, Global};
use std::env::{self, Env};
use std::error::Error;
use std::fmt;
use std::fs::{File, Files};
use std::io::{self, ErrorKind, Input, Read};

/// The largest size of an image in bytes: 64 MiB.
pub const MOST_BYTES: u64 = 64 * 1024 * 1024;

/// Why reading an image failed.
#[derive(Clone, Copy, Debug, PartialEq, Eq)]
pub enum InputFault {
    /// Out of memory.
    Memory,
    /// There is no such file.
    NotFound,
    /// The file is a directory.
    IsDirectory,
    /// The path goes through a file that is not a directory.
    NotDirectory,
    /// The path goes through too many symbolic links.
    LinkLoop,
    /// The path or a name in it is too long.
    NameTooLong,
    /// There is no permission to read the file.
    PermissionDenied,
    /// The image is longer than 64 MiB.
    TooLong,
    /// Opening or reading failed for another reason.
    Other,
}

impl InputFault {
    /// The fault in words.
    pub fn words(self) -> &'static str
        ensures { result.now ≡ input_fault_words self }
    {
        match self {
            InputFault::Memory => "out of memory",
            InputFault::NotFound => "no such file",
            InputFault::IsDirectory => "is a directory",
            InputFault::NotDirectory => "part of its path is not a directory",
            InputFault::LinkLoop => "too many symbolic links",
            InputFault::NameTooLong => "file name too long",
            InputFault::PermissionDenied => "permission denied",
            InputFault::TooLong => "longer than 64 MiB",
            InputFault::Other => "input/output error",
        }
    }
}

impl fmt::Display for InputFault {
    ghost output = { λ fault. Some (input_fault_words fault) };

    fn fmt<W: fmt::Write>(&self, f: &mut fmt::Formatter<W>) -> fmt::Result {
        f.write_str(self.words())
    }
}

impl Error for InputFault {}

impl From<io::Error> for InputFault {
    ghost from_gives = { λ error fault. IsFaultOf (error_kind error) fault };

    fn from(error: io::Error) -> InputFault {
        match error.kind() {
            ErrorKind::OutOfMemory => InputFault::Memory,
            ErrorKind::NotFound => InputFault::NotFound,
            ErrorKind::IsADirectory => InputFault::IsDirectory,
            ErrorKind::NotADirectory => InputFault::NotDirectory,
            ErrorKind::FilesystemLoop => InputFault::LinkLoop,
            ErrorKind::InvalidFilename => InputFault::NameTooLong,
            ErrorKind::PermissionDenied => InputFault::PermissionDenied,
            _ => InputFault::Other,
        }
    }
}

/// The words of a command line: the arguments of a process, starting with the program's name. Without any arguments,
/// that name is `ipmitool`.
pub fn words_of(alloc: Global, arguments: &[String]) -> Result<Words, AllocError>
    ensures { IfOk result (λ words. words ≡ named (map (λ argument. string_bytes argument) arguments.now)) }
{
    let mut words = Words::new(alloc);
    for argument in arguments {
        words.push(argument.as_str())?;
    }
    if words.as_slice().is_empty() {
        words.push("ipmitool")?;
    }
    Ok(words)
}

/// The words of this process ([`words_of`]). An argument that is not UTF-8 is `UsageFault::Line`.
pub fn read_words<R: Env + AllocGlobal>(rt: &R) -> Result<Words, UsageFault>
    ensures ok { IfOk result (λ words. 0 < length words) }
    ensures err { IfErr result (λ fault. (fault ≡ UsageFault.Memory) ⊎ (fault ≡ UsageFault.Line)) }
{
    let arguments: Vec<String> = match env::args(rt) {
        Ok(arguments) => arguments.collect(rt.alloc())?,
        Err(error) if error.kind() == ErrorKind::OutOfMemory => return Err(UsageFault::Memory),
        Err(_) => return Err(UsageFault::Line),
    };
    Ok(words_of(rt.alloc(), &arguments)?)
}

/// All bytes of the reader, up to its first empty read. More than 64 MiB is `InputFault::TooLong`.
pub fn read_image<R: Read + Drop>(alloc: Global, reader: R) -> Result<Vec<u8>, InputFault>
    ensures fits { IfOk result (λ bytes. vec_len bytes ≤ 67108864) }
    ensures all { IfOk result (λ bytes. IfSome (R.remaining reader) (λ all. bytes.items ≡ all)) }
    ensures long { IfErr result (λ fault. fault ≡ InputFault.TooLong →
        IfSome (R.remaining reader) (λ all. 67108864 < length all)) }
{
    let mut bytes = Vec::new(alloc);
    reader.take(MOST_BYTES + 1).read_to_end(&mut bytes)?;
    if bytes.len() as u64 > MOST_BYTES {
        return Err(InputFault::TooLong);
    }
    // up to half of the capacity is spare
    bytes.shrink_to_fit();
    Ok(bytes)
}

/// The name of the input in messages: the file, or standard input if no file is given.
pub fn input_name(file: Option<&Word>) -> &str
    ensures { result.now ≡ input_name (option_map (λ word. word.now) file.entry) }
{
    file.map_or("standard input", |file| file.as_str())
}

/// All bytes of the file, or of standard input if no file is given ([`read_image`]).
pub fn read_input<R: Files + Input + AllocGlobal>(
    rt: &R,
    file: Option<&Word>,
) -> Result<Vec<u8>, InputFault>
    ensures { IfOk result (λ bytes. vec_len bytes ≤ 67108864) }
{
    match file {
        Some(file) => read_image(rt.alloc(), File::open(rt, file.as_str())?),
        None => read_image(rt.alloc(), rt.reader()),
    }
}
