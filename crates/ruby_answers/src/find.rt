// The answer to options, found before anything is written.
ghost use Rattle.std.specs.Prelude.{◌≡◌, ◌≢◌, [], Some, IfOk, IsUtf8, false, true};
ghost use Rattle.ruby_answers.specs.Prelude.{IsAfter, IsAloneAnswer, IsAnswerOf, IsFoundBy, IsFoundFurther, is_generated, IsByOneWorker, IsRight, IsRightBy, IsRightGot, IsRightTo, IsTable, generated_files, generated_name, generated_text};
ghost use Rattle.ruby_options.specs.Prelude.{IsWithin};
ghost use Rattle.ruby_options.specs.declared.options.Command.TheVariants.{Code, Run};
ghost use Rattle.ruby_answers.specs.declared.done.Answer.TheVariants.{Generated, Ran};

use crate::maker::Maker;
use crate::tested_runs::{plain_run, said_run};
use crate::{Answer, generated, table_rows};
use protocol_meaning::RunRecord;
use ruby_base::{NoMemory, Seq, Text};
use ruby_options::{Command, Options};
use ruby_outside::{Got, Library, SureLibrary};
use ruby_topology::TopoFault;
use slicc_front::{Front, front};
use slicc_plan::{Plan, counts};
use std::alloc::Global;

// The most bytes of a topology's file.
const FILE_LIMIT: u64 = 1_048_576;

// The answer that a run is, or why there is none.
fn ran(run: Result<RunRecord, TopoFault>) -> Result<Answer, NoMemory>
    requires alone { IfOk run IsByOneWorker }
    ensures answer { IfOk result (IsAnswerOf Ran run) }
    ensures alone { IfOk result IsAloneAnswer }
{
    match run {
        Ok(record) => Ok(Answer::Ran(record)),
        Err(TopoFault::Line { rule, line }) => Ok(Answer::Unfit { rule, line }),
        Err(TopoFault::NoMemory) => Err(NoMemory),
    }
}

// The same for a run of a generated protocol.
fn generated(run: Result<RunRecord, TopoFault>) -> Result<Answer, NoMemory>
    requires alone { IfOk run IsByOneWorker }
    ensures answer { IfOk result (IsAnswerOf Generated run) }
    ensures alone { IfOk result IsAloneAnswer }
{
    match run {
        Ok(record) => Ok(Answer::Generated(record)),
        Err(TopoFault::Line { rule, line }) => Ok(Answer::Unfit { rule, line }),
        Err(TopoFault::NoMemory) => Err(NoMemory),
    }
}

// The answer to a run of a protocol, by what the library gave for the topology's file.
fn answer_got<M: Maker>(
    alloc: Global,
    maker: &M,
    options: Options,
    plan: Plan,
    got: Got,
) -> Result<Answer, NoMemory>
    requires within { IsWithin options }
    ensures right { IfOk result (IsRightGot options plan got) }
    ensures alone { IfOk result IsAloneAnswer }
{
    match got {
        Got::Bytes(bytes) if bytes.len() as u64 <= FILE_LIMIT => {
            ran(said_run(alloc, maker, plan, bytes.as_slice(), options))
        }
        Got::Bytes(_) => Ok(Answer::TooLarge(options.topology)),
        Got::TooLarge => Ok(Answer::TooLarge(options.topology)),
        Got::Absent => Ok(Answer::Absent(options.topology)),
        Got::Failed => Ok(Answer::ReadFault(options.topology)),
        Got::NoMemory => Err(NoMemory),
    }
}

// The answer to a run of a protocol over the topology's file, which is read.
fn answer_run<M: Maker, L: Library>(
    alloc: Global,
    maker: &M,
    options: Options,
    plan: Plan,
    library: &mut L,
) -> Result<Answer, NoMemory>
    requires name { IsUtf8 options.topology }
    requires within { IsWithin options }
    requires command { options.command ≡ Run }
    ensures found { IsFoundFurther L.reads options library.old library.new (λ more. IfOk result (IsRightBy Run options plan more)) }
    ensures alone { IfOk result IsAloneAnswer }
{
    let name = str::from_utf8(options.topology.as_slice()).unwrap();
    let got = library.read(name, FILE_LIMIT);
    answer_got(alloc, maker, options, plan, got)
}

// The rows of a protocol's tables.
fn table(alloc: Global, plan: Plan) -> Result<Answer, NoMemory>
    ensures right { IfOk result (IsTable plan) }
    ensures alone { IfOk result IsAloneAnswer }
{
    let rows = table_rows(alloc, &plan)?;
    Ok(Answer::Tabled(plan, rows))
}

// The answer to the plan of a protocol.
fn answer_plan<M: Maker, L: Library>(
    alloc: Global,
    maker: &M,
    options: Options,
    plan: Plan,
    library: &mut L,
) -> Result<Answer, NoMemory>
    requires name { IsUtf8 options.topology }
    requires within { IsWithin options }
    requires command { options.command ≢ Code }
    ensures found { IsFoundFurther L.reads options library.old library.new (λ more. IfOk result (IsRightBy options.command options plan more)) }
    ensures alone { IfOk result IsAloneAnswer }
{
    match options.command {
        Command::Run => answer_run(alloc, maker, options, plan, library),
        Command::Plain => ran(plain_run(alloc, maker, plan, options)),
        Command::Check => Ok(Answer::Accepted(counts(&plan))),
        Command::Table => table(alloc, plan),
        Command::Gen => generated(plain_run(alloc, maker, plan, options)),
        Command::Code => unreachable!(),
    }
}

// The answer to what the protocol's files come to.
fn answer_front<M: Maker, L: Library>(
    alloc: Global,
    maker: &M,
    options: Options,
    found: Front,
    library: &mut L,
) -> Result<Answer, NoMemory>
    requires name { IsUtf8 options.topology }
    requires within { IsWithin options }
    requires command { options.command ≢ Code }
    ensures found { IsFoundFurther L.reads options library.old library.new (λ more. IsAfter found more × IfOk result (IsRightTo options found more)) }
    ensures alone { IfOk result IsAloneAnswer }
{
    match found {
        Front::Plan(plan) => answer_plan(alloc, maker, options, plan, library),
        Front::Refused(refused) => Ok(Answer::Refused(refused)),
        Front::Absent(name) => Ok(Answer::Absent(name)),
        Front::TooLarge(name) => Ok(Answer::TooLarge(name)),
        Front::ReadFault(name) => Ok(Answer::ReadFault(name)),
        Front::NoMemory => Err(NoMemory),
    }
}

// The answer to options that ask for a protocol of a library.
fn find_read<M: Maker, L: Library>(
    alloc: Global,
    maker: &M,
    options: Options,
    library: &mut L,
) -> Result<Answer, NoMemory>
    requires names { IsUtf8 options.protocol × IsUtf8 options.topology }
    requires within { IsWithin options }
    requires command { options.command ≢ Code }
    requires read { is_generated options.command ≡ false }
    ensures found { IsFoundBy L.reads options library.old library.new (λ made. IfOk result (IsRight (Some options) made)) }
    ensures alone { IfOk result IsAloneAnswer }
{
    let found = front(alloc, library, &options.protocol);
    answer_front(alloc, maker, options, found, library)
}

// The file of a generated protocol: its name and its text.
fn generated_file(alloc: Global, count: u64) -> Result<(Text, Text), NoMemory>
    ensures { IfOk result (λ file. file ≡ (generated_name, generated_text count)) }
{
    let name = Text::copied(alloc, generated::name().as_bytes())?;
    let text = generated::text(alloc, count)?;
    Ok((name, text))
}

// A library with the file of a generated protocol alone.
fn generated_library(alloc: Global, count: u64) -> Result<SureLibrary, NoMemory>
    ensures { IfOk result (λ library. library ≡ generated_files count) }
{
    let file = generated_file(alloc, count)?;
    let mut files = Seq::new(alloc);
    files.push(file)?;
    Ok(SureLibrary::new(alloc, files))
}

// The answer to options that ask for a generated protocol.
fn find_generated<M: Maker>(alloc: Global, maker: &M, options: Options) -> Result<Answer, NoMemory>
    requires name { IsUtf8 options.topology }
    requires within { IsWithin options }
    requires generated { is_generated options.command ≡ true }
    ensures right { IfOk result (IsRight (Some options) []) }
    ensures alone { IfOk result IsAloneAnswer }
{
    let name = Text::copied(alloc, generated::name().as_bytes())?;
    let mut library = generated_library(alloc, options.count)?;
    let found = front(alloc, &mut library, &name);
    answer_front(alloc, maker, options, found, &mut library)
}

fn is_generated(command: Command) -> bool
    ensures { result ≡ is_generated command }
{
    match command {
        Command::Gen => true,
        _ => false,
    }
}

/// The answer to options over a library, from which the protocol's files are read, and for a run over a topology's file that file.
pub fn find_answer<M: Maker, L: Library>(
    alloc: Global,
    maker: &M,
    options: Options,
    library: &mut L,
) -> Result<Answer, NoMemory>
    requires names { IsUtf8 options.protocol × IsUtf8 options.topology }
    requires within { IsWithin options }
    requires command { options.command ≢ Code }
    ensures found { IsFoundBy L.reads options library.old library.new (λ made. IfOk result (IsRight (Some options) made)) }
    ensures alone { IfOk result IsAloneAnswer }
{
    if is_generated(options.command) {
        find_generated(alloc, maker, options)
    } else {
        find_read(alloc, maker, options, library)
    }
}
