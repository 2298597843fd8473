//! What command lines of `serdimko` ask for, and why others are refused.
use crate::cases::parts;
use ipmi_command_line::{
    Action, Filters, Form, Format, IdRange, Ids, Request, Source, Task, UsageError, Word, Words,
    request_of,
};
use std::alloc::Global;
use std::process::Abort;

/// 2026-11-30 in UTC, in seconds since 1970.
const CLOCK: u32 = 1_795_996_800;

/// The words of a line after the program's name, split at commas.
fn words_of(rt: &impl Abort, alloc: Global, line: &str) -> Words {
    let mut words = Words::new(alloc);
    words.push("serdimko").expect(rt, "memory");
    for word in line.split(',').filter(|word| !word.is_empty()) {
        words.push(word).expect(rt, "memory");
    }
    words
}

/// Words with spaces between them.
fn spaced(rt: &impl Abort, alloc: Global, words: &[Word]) -> String {
    let mut text = String::new(alloc);
    for word in words {
        text.push_str(" ").expect(rt, "memory");
        text.push_str(word.as_str()).expect(rt, "memory");
    }
    text
}

fn task_text(rt: &impl Abort, alloc: Global, task: &Task) -> String {
    match task {
        Task::Get(name) => {
            let name = name.as_str();
            format!(in alloc; "Get({name})").expect(rt, "memory")
        }
        _ => format!(in alloc; "{task:?}").expect(rt, "memory"),
    }
}

/// Tasks, each after a space.
fn tasks_text(rt: &impl Abort, alloc: Global, tasks: &[Task]) -> String {
    let mut text = String::new(alloc);
    for task in tasks {
        let task = task_text(rt, alloc, task);
        text.push_str(" ").expect(rt, "memory");
        text.push_str(task.as_str()).expect(rt, "memory");
    }
    text
}

fn file_text(file: Option<&Word>) -> &str {
    match file {
        Some(file) => file.as_str(),
        None => "-",
    }
}

fn action_text(rt: &impl Abort, alloc: Global, action: &Action) -> String {
    match action {
        Action::Print(task, from) => {
            let task = task_text(rt, alloc, task);
            format!(in alloc; "{task} {from:?}").expect(rt, "memory")
        }
        Action::PrintEach(tasks) => {
            let tasks = tasks_text(rt, alloc, tasks.as_slice());
            format!(in alloc; "each{tasks}").expect(rt, "memory")
        }
        Action::GetSensors(names, from) => {
            let names = spaced(rt, alloc, names.as_slice());
            format!(in alloc; "sensors{names} {from:?}").expect(rt, "memory")
        }
        Action::Capture {
            output,
            quiet,
            partial,
        } => {
            let file = file_text(output.as_ref());
            format!(in alloc; "capture {file} {quiet} {partial}").expect(rt, "memory")
        }
        Action::PrintNew(file) => {
            let file = file.as_str();
            format!(in alloc; "new {file}").expect(rt, "memory")
        }
        Action::Check { has_data: false } => String::from_str(alloc, "check").expect(rt, "memory"),
        Action::Check { has_data: true } => {
            String::from_str(alloc, "check and data").expect(rt, "memory")
        }
        Action::Metrics { is_open, output } => {
            let file = file_text(output.as_ref());
            format!(in alloc; "metrics {is_open} {file}").expect(rt, "memory")
        }
        Action::Rewrite => String::from_str(alloc, "rewrite").expect(rt, "memory"),
        Action::Help(topic) => format!(in alloc; "help {topic:?}").expect(rt, "memory"),
        Action::Version => String::from_str(alloc, "version").expect(rt, "memory"),
    }
}

fn source_text(rt: &impl Abort, alloc: Global, source: &Source) -> String {
    match source {
        Source::Images(images) => {
            let images = spaced(rt, alloc, images.as_slice());
            format!(in alloc; "images{images}").expect(rt, "memory")
        }
        Source::Live(tool, folder, host) => {
            let folder = folder.as_str();
            let host = host.as_ref().map_or("", Word::as_str);
            format!(in alloc; "{tool:?} {folder} {host}").expect(rt, "memory")
        }
    }
}

fn format_text(rt: &impl Abort, alloc: Global, form: &Format) -> String {
    match form {
        Format::Plain => String::from_str(alloc, "plain").expect(rt, "memory"),
        Format::Descriptive => String::from_str(alloc, "words").expect(rt, "memory"),
        Format::Labelled(Form::Json, _, labels) => {
            let labels = spaced(rt, alloc, labels.as_slice());
            format!(in alloc; "json{labels}").expect(rt, "memory")
        }
        Format::Labelled(Form::Csv, separator, labels) => {
            let labels = spaced(rt, alloc, labels.as_slice());
            format!(in alloc; "csv {separator:?}{labels}").expect(rt, "memory")
        }
    }
}

fn ranges_of(ids: &Option<Ids>) -> &[IdRange] {
    match ids {
        Some(ids) => ids.as_slice(),
        None => &[],
    }
}

/// The filters that were given, each after a space.
fn filters_text(rt: &impl Abort, alloc: Global, filters: &Filters) -> String {
    let mut text = String::new(alloc);
    if let Some(code) = filters.sensor_type {
        write!(text, " type {code}").expect(rt, "memory");
    }
    if let Some(entity) = filters.entity {
        let (id, instance) = (entity.id, entity.instance);
        write!(text, " entity {id} {instance:?}").expect(rt, "memory");
    }
    for range in ranges_of(&filters.ids) {
        let (first, last) = (range.first, range.last);
        write!(text, " {first}-{last}").expect(rt, "memory");
    }
    if let Some(time) = filters.since {
        write!(text, " since {time}").expect(rt, "memory");
    }
    if let Some(time) = filters.until {
        write!(text, " until {time}").expect(rt, "memory");
    }
    if let Some(worse) = filters.worse {
        write!(text, " worse {worse:?}").expect(rt, "memory");
    }
    for name in filters.excluded.as_slice() {
        let name = name.as_str();
        write!(text, " not {name}").expect(rt, "memory");
    }
    text
}

/// A request: the action, the filters, the source and the image of its records, the limits, the format, and whether it is strict.
fn request_text(rt: &impl Abort, alloc: Global, request: &Request) -> String {
    let action = action_text(rt, alloc, &request.action);
    let filters = filters_text(rt, alloc, &request.filters);
    let source = source_text(rt, alloc, &request.source);
    let records = request.records.as_ref().map_or("", Word::as_str);
    let form = format_text(rt, alloc, &request.format);
    let (part, tries, strict) = (request.limits.part, request.limits.tries, request.strict);
    format!(in alloc;
        "{action}{filters}; {source}{records}; {part:?} {tries}; {form}; {strict}"
    ).expect(rt, "memory")
}

fn answer_text(rt: &impl Abort, alloc: Global, answer: Result<Request, UsageError<'_>>) -> String {
    match answer {
        Ok(request) => {
            let text = request_text(rt, alloc, &request);
            drop(request);
            text
        }
        Err(error) => {
            let text = format!(in alloc; "{error}").expect(rt, "memory");
            drop(error);
            text
        }
    }
}

/// Asserts what a line asks for, or why it is refused.
fn assert_request(rt: &impl Abort, alloc: Global, case: &str) {
    let (line, wanted) = parts(rt, case);
    let words = words_of(rt, alloc, line);
    let got = answer_text(rt, alloc, request_of(alloc, CLOCK, words.as_slice()));
    drop(words);
    assert!(rt; got.as_str() == wanted, "{line}: got {got}");
}

/// `words|request`.
const REQUESTS: &str = "|Hex None; images; None 5; plain; false
sdr|List(Sensors) None; images; None 5; plain; false
--,sdr,list|List(Sensors) None; images; None 5; plain; false
sdr,list,--image,a,full,--from,00a0|List(Full) Some(160); images a; None 5; plain; false
--image,a,sdr,get,CPU1 Temp,--image=-|Get(CPU1 Temp) None; images a -; None 5; plain; false
sdr,get,CPU1,Temp|sensors CPU1 Temp None; images; None 5; plain; false
sdr,get,--,--help|Get(--help) None; images; None 5; plain; false
sdr,type,Fan|Elist(All) None type 4; images; None 5; plain; false
sdr,type,power supply,--exclude,PSU1,--exclude,PSU2|Elist(All) None type 8 not PSU1 not PSU2; images; None 5; plain; false
sdr,type,0xff,--json|Elist(All) None type 255; images; None 5; json; false
sdr,type|help SensorTypes; images; None 5; plain; false
sdr,type,list,--strict|help SensorTypes; images; None 5; plain; false
sdr,list,--id,0000-0002|List(Sensors) None 0-2; images; None 5; plain; false
sdr,entity,7|Elist(All) None entity 7 None; images; None 5; plain; false
sdr,entity,0x07.127,--from,0002|Elist(All) Some(2) entity 7 Some(127); images; None 5; plain; false
sdr,list,all,--type,1,--entity,3.1|List(All) None type 1 entity 3 Some(1); images; None 5; plain; false
sensor,--id,000a|List(Sensors) None 10-10; images; None 5; words; false
sensor|List(Sensors) None; images; None 5; words; false
sensor,list,--part,8,--tries,0|List(Sensors) None; images; Some(8) 0; words; false
sensor,get,A,B,--from,0002|sensors A B Some(2); images; None 5; words; false
sel|Info(Sel) None; images; None 5; plain; false
sel,list,last,20|SelList(Last(20)) None; images; None 5; plain; false
sel,elist|SelList(All) None; images; None 5; words; false
sel,list,--since,1970-01-02,--until,1970-01-02T00:00:01Z|SelList(All) None since 86400 until 86401; images; None 5; plain; false
sel,elist,--since,2026-11-30T01:00:00+01:00,--type,fan|SelList(All) None type 4 since 1795996800; images; None 5; words; false
sel,list,5,--since,2026-11-30|SelList(First(5)) None since 1795996800; images; None 5; plain; false
sel,elist,last,5,--type,fan|SelList(Last(5)) None type 4; images; None 5; words; false
sel,list,--since,2h,--until,0h|SelList(All) None since 1795989600 until 1795996800; images; None 5; plain; false
sel,list,--since,3d|SelList(All) None since 1795737600; images; None 5; plain; false
sel,elist,--now,1970-01-02,--since,3h|SelList(All) None since 75600; images; None 5; words; false
sel,elist,--until,65535d,--now,2106-01-01|SelList(All) None until 0; images; None 5; words; false
sel,list,--id,0001-000f|SelList(All) None 1-15; images; None 5; plain; false
sel,elist,0,--until,2106-02-07T06:28:15Z|SelList(All) None until 4294967295; images; None 5; words; false
sel,list,--worse,warning|SelList(All) None worse Warning; images; None 5; plain; false
sel,elist,last,5,--worse=critical,--type,1|SelList(Last(5)) None type 1 worse Critical; images; None 5; words; false
sel,elist,0x10|SelList(First(16)) None; images; None 5; words; false
sel,elist,last,3|SelList(Last(3)) None; images; None 5; words; false
sel,tail,5|SelList(Tail(5)) None; images; None 5; words; false
sel,tail,0xffff,--json|SelList(Tail(65535)) None; images; None 5; json; false
sel,get,0x16|SelGet(22) None; images; None 5; plain; false
sel,get,--id,0016|each SelGet(22); images; None 5; plain; false
--id=0x16,sel,get|each SelGet(22); images; None 5; plain; false
sel,get,--id,000e-0010|each SelGet(14) SelGet(15) SelGet(16); images; None 5; plain; false
fru,print,--id,fd-fe,--json|each Fru(Some(253)) Fru(Some(254)); images; None 5; json; false
sel,get,1,0x10,3|each SelGet(1) SelGet(16) SelGet(3); images; None 5; plain; false
fru,print,0,254|each Fru(Some(0)) Fru(Some(254)); images; None 5; plain; false
fru,print,254|Fru(Some(254)) None; images; None 5; plain; false
fru,list,--strict,--strict|Fru(None) None; images; None 5; words; true
--json,--label,a=1,--label,b=2,fru|Fru(None) None; images; None 5; json a=1 b=2; false
--csv,sensor|List(Sensors) None; images; None 5; csv Comma; false
sel,list,--csv,--separator,semicolon,--label,a=1|SelList(All) None; images; None 5; csv Semicolon a=1; false
sdr,info,--live,ipmitool:/tmp/x|Info(Sdr) None; Ipmitool /tmp/x ; None 5; plain; false
--live,freeipmi:x,capture,-o,file,--quiet|capture file true false; FreeIpmi x ; None 5; plain; false
--live,freeipmi:x,capture,--partial|capture - false true; FreeIpmi x ; None 5; plain; false
check|check; images; None 5; plain; false
check,--image,a,--exclude,Fan 1,--type,fan|check type 4 not Fan 1; images a; None 5; plain; false
--live,ipmitool:x,--records,a,check,--tries,1|check; Ipmitool x a; None 1; plain; false
help,check|help Check; images; None 5; plain; false
sel,list,--cursor-file,f|new f; images; None 5; plain; false
sel,elist,--cursor-file,f,--image,a|new f; images a; None 5; words; false
check,--perfdata|check and data; images; None 5; plain; false
metrics|metrics false -; images; None 5; plain; false
--live,ipmitool:x,metrics,-o,a.prom,--openmetrics,--type,fan|metrics true a.prom type 4; Ipmitool x ; None 5; plain; false
help,metrics|help Metrics; images; None 5; plain; false
--live,ipmitool:/tmp/x:fe80::1%eth0,fru|Fru(None) None; Ipmitool /tmp/x fe80::1%eth0; None 5; plain; false
--live,ipmitool:x,--records,r.image,sensor|List(Sensors) None; Ipmitool x r.image; None 5; words; false
image,rewrite,--image,a|rewrite; images a; None 5; plain; false
sdr,get,-h|help Sdr; images; None 5; plain; false
--help,--version|help General; images; None 5; plain; false
help,sel|help Sel; images; None 5; plain; false
-V,sdr|version; images; None 5; plain; false";

#[test]
fn lines_ask_for_this(rt: HostRuntime) {
    for case in REQUESTS.lines() {
        assert_request(&rt, rt.alloc(), case);
    }
}

/// `words|why they are refused`.
const REFUSED: &str = "srd|unknown command 'srd': did you mean 'sdr'?
foo|unknown command 'foo': use one of sdr sensor sel fru check metrics capture image help
server.image|unknown command 'server.image': a file comes after --image
sdr,lst|unknown word 'lst' after 'sdr': did you mean 'list'?
sel,cl\u{7}ear|unknown word 'cl\\x07ear' after 'sel': use one of info list elist tail get
sdr,list,ful|'ful' is not a kind: all, full, compact, event, generic, mclocator or fru: did you mean 'full'?
sdr,get|'sdr get' needs a NAME
sensor,get|'sensor get' needs a NAME
sdr,type,Fann|'Fann' is not a sensor type, which is a name or a number from 0 to 255: did you mean 'Fan'?
sdr,list,--type,256|'256' is not a sensor type, which is a name or a number from 0 to 255: for the names write serdimko sdr type
sdr,type,Power,Supply|unexpected word 'Supply' with 'sdr type': quote a name that has spaces
sdr,type,--json|--json does not go with 'sdr type'
sel,list,--since,2026-12-01,--until,2026-11-01|--since is later than --until
sel,list,3,--cursor-file,f|--cursor-file goes with one whole log: not with a number of entries, --from or several images
sel,elist,last,3,--cursor-file,f|--cursor-file goes with one whole log: not with a number of entries, --from or several images
sel,list,--from,0002,--cursor-file,f|--cursor-file goes with one whole log: not with a number of entries, --from or several images
sel,list,--cursor-file,f,--image,a,--image,b|--cursor-file goes with one whole log: not with a number of entries, --from or several images
sel,tail,3,--cursor-file,f|--cursor-file does not go with 'sel tail'
check,--cursor-file,f|--cursor-file does not go with 'check'
sdr,type,Fan,--type,Fan|--type does not go with 'sdr type'
sdr,entity|'sdr entity' needs an entity: ID or ID.INSTANCE, 0 to 255 and 0 to 127
sdr,entity,3.128|'3.128' is not an entity: ID or ID.INSTANCE, 0 to 255 and 0 to 127
sdr,entity,3,1|unexpected word '1' with 'sdr entity'
sensor,--id,5-1|--id '5-1' is not a list of hex ids (events 1 to FFFE, devices 0 to FE), as 16 or 0001-0005,000A
sdr,get,A,--exclude,B|--exclude does not go with 'sdr get'
sel,tail,5,--type,Fan|--type does not go with 'sel tail'
sel,list,--entity,3|--entity does not go with 'sel list'
sel,list,--since,yesterday|--since 'yesterday' is not a date, a time with Z or an offset, from 1970 to 2106, or hours or days ago: 2026-11-30, 2026-11-30T12:00Z, 2h or 3d
sel,list,--until,2026-11-31|--until '2026-11-31' is not a date, a time with Z or an offset, from 1970 to 2106, or hours or days ago: 2026-11-30, 2026-11-30T12:00Z, 2h or 3d
sel,list,--until,2106-02-07T06:28:16Z|--until '2106-02-07T06:28:16Z' is not a date, a time with Z or an offset, from 1970 to 2106, or hours or days ago: 2026-11-30, 2026-11-30T12:00Z, 2h or 3d
sel,list,--since,1969-12-31|--since '1969-12-31' is not a date, a time with Z or an offset, from 1970 to 2106, or hours or days ago: 2026-11-30, 2026-11-30T12:00Z, 2h or 3d
sel,list,--since,2m|--since '2m' is not a date, a time with Z or an offset, from 1970 to 2106, or hours or days ago: 2026-11-30, 2026-11-30T12:00Z, 2h or 3d
sel,list,--since,02h|--since '02h' is not a date, a time with Z or an offset, from 1970 to 2106, or hours or days ago: 2026-11-30, 2026-11-30T12:00Z, 2h or 3d
sel,list,--until,h|--until 'h' is not a date, a time with Z or an offset, from 1970 to 2106, or hours or days ago: 2026-11-30, 2026-11-30T12:00Z, 2h or 3d
sel,list,--until,1h1|--until '1h1' is not a date, a time with Z or an offset, from 1970 to 2106, or hours or days ago: 2026-11-30, 2026-11-30T12:00Z, 2h or 3d
sel,list,--now,2h,--since,1d|--now '2h' is not a date, or a time with Z or an offset, from 1970 to 2106: 2026-11-30 or 2026-11-30T12:00Z
sdr,list,--since,2026-11-30|--since does not go with 'sdr list'
sel,list,--worse,bad|--worse 'bad' is not warning or critical
sel,list,--worse,Warning|--worse 'Warning' is not warning or critical
sdr,list,--worse,critical|--worse does not go with 'sdr list'
sdr,list,--now,2026-11-30|--now does not go with 'sdr list'
sel,get,1,--now,2026-11-30|--now does not go with 'sel get'
sdr,info,foo|unexpected word 'foo' with 'sdr info'
sel,list,ten|'ten' is not a number from 0 to 65535, in decimal without leading zeros or as 0x and up to four hex digits
sel,get,0016|'0016' is not an ID from 1 to 65534, in decimal without leading zeros or as 0x and up to four hex digits: in hex write 0x0016, or --id 0016
sel,get|'sel get' needs an ID from 1 to 65534
sel,get,1,0,2|'0' is not an ID from 1 to 65534, in decimal without leading zeros or as 0x and up to four hex digits
sel,get,--id,0-3|--id '0-3' is not a list of hex ids (events 1 to FFFE, devices 0 to FE), as 16 or 0001-0005,000A
fru,print,0,255|'255' is not an ID from 0 to 254, in decimal without leading zeros or as 0x and up to four hex digits
fru,print,1f|'1f' is not an ID from 0 to 254, in decimal without leading zeros or as 0x and up to four hex digits: in hex write 0x1f, or --id 1f
fru,print,--id,00ff|--id '00ff' is not a list of hex ids (events 1 to FFFE, devices 0 to FE), as 16 or 0001-0005,000A
fru,print,1,--id,2|'fru print' takes an ID or --id, not both
fru,print,1,2,--from,0001|--from does not go with 'fru print'
sel,tail|'sel tail' needs a number from 1 to 65535
sel,tail,0|'0' is not a number from 1 to 65535, in decimal without leading zeros or as 0x and up to four hex digits
sel,tail,5,6|unexpected word '6' with 'sel tail'
sel,tail,5,--from,0002|--from does not go with 'sel tail'
sel,get,1,--id,2|'sel get' takes an ID or --id, not both
sdr,hex,--id,2|--id does not go with 'sdr hex'
sdr,list,--from,0000|--from '0000' is not four hex digits from 0001 to FFFE: leave it out to begin with the first record
--part,0|--part '0' is not a number from 1 to 254, decimal without leading zeros
sdr,info,--from,0001|--from does not go with 'sdr info'
--image,-,--image,-|standard input is given twice
--live,ipmitool:x,--image,a|--image does not go with a live controller
capture|'capture' needs a live controller: see serdimko-live --help
--image,a,--image,b,image,rewrite|'image rewrite' takes one image
--image,a,--image,b,check|'check' takes one image
check,--from,0001|--from does not go with 'check'
metrics,--perfdata|--perfdata does not go with 'metrics'
metrics,fans|unexpected word 'fans' with 'metrics'
--image,a,--image,b,metrics|'metrics' takes one image
--json,metrics|--json does not go with 'metrics'
check,sensors|unexpected word 'sensors' with 'check'
check,--worse,warning|--worse does not go with 'check'
--json,check|--json does not go with 'check'
--label,a=1|--label goes only with --json or --csv
--csv,--json|--json does not go with --csv
--separator,comma|--separator goes only with --csv
--csv,--separator,x|--separator 'x' is not comma or semicolon
--csv,capture|--csv does not go with 'capture'
--records,a,sdr|--records goes only with a live controller
--live,ipmitool:x,--records,a,capture|--records does not go with 'capture'
--imge,a|unexpected argument '--imge' found; a similar argument exists: '--image'
-P,secret|unexpected argument '-P' found: for a live machine put the password in IPMI_PASSWORD, and write serdimko-live -E ... -- COMMAND
-H,host,sdr|unexpected argument '-H' found: for a live machine write serdimko-live -H ... -- COMMAND
--part,1,--part,2|the argument '--part <part>' cannot be used multiple times";

#[test]
fn other_lines_are_refused(rt: HostRuntime) {
    for case in REFUSED.lines() {
        assert_request(&rt, rt.alloc(), case);
    }
}
