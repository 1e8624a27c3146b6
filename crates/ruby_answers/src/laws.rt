// What holds of the answers that the top call's contract speaks of. These functions do nothing: their contracts are the laws.
ghost use Rattle.std.specs.Prelude.{◌≡◌, IfSome, List, Option};
ghost use Rattle.ruby_outside.specs.Prelude.{Rose, Files};
ghost use Rattle.slicc_ast.specs.declared.tree.item.Tree.{Tree};
ghost use Rattle.slicc_files.specs.Prelude.{Read};
ghost use Rattle.ruby_answers.specs.declared.done.Answer.{Answer};
ghost use Rattle.ruby_answers.specs.declared.done.Done.{Done};
ghost use Rattle.ruby_options.specs.declared.options.Options.{Options};
ghost use Rattle.ruby_options.specs.Prelude.{IsWithin};
ghost use Rattle.ruby_topology.specs.declared.topology.Topology.{Topology};
ghost use Rattle.ruby_answers.specs.Prelude.{IsAnswered, IsAloneAnswer, IsTheorem, IsAnswer, IsRight, IsRunOver, IsSame};

use one_answer::records_are_one_answer;
use protocol_meaning::{meanings_are_lawful, plain_topologies_fit, topologies_fit};
use random_tester::Tester;
use ruby_outside::{Library, Sink};
use sequencer::PlainDriver;

/// At most one answer is right over given files, and to given reads, but that a run may go another way than another that begins in
/// the same way; of runs by one worker, with options within their bounds, there is one. Over given files a run is of one protocol over
/// one topology.
pub fn answers_are_one()
    ensures one { (files : Files) (asked : Option Options) (a b : Answer)
        → IsAnswer files asked a → IsAnswer files asked b → IsSame a b }
    ensures alone { (files : Files) (asked : Option Options) (a b : Answer)
        → IfSome asked IsWithin → IsAnswer files asked a → IsAnswer files asked b
        → IsAloneAnswer a → IsAloneAnswer b → a ≡ b }
    ensures runs { (files : Files) (asked : Option Options) (trees others : List Tree)
        (t u : Topology)
        → IsRunOver files asked trees t → IsRunOver files asked others u
        → (trees ≡ others) × (t ≡ u) }
    ensures by_reads { (asked : Option Options) (reads : List Read) (a b : Answer)
        → IsRight asked reads a → IsRight asked reads b → IsSame a b }
    ensures alone_by_reads { (asked : Option Options) (reads : List Read) (a b : Answer)
        → IfSome asked IsWithin → IsRight asked reads a → IsRight asked reads b
        → IsAloneAnswer a → IsAloneAnswer b → a ≡ b }
{
    meanings_are_lawful();
    topologies_fit();
    plain_topologies_fit();
}

/// The clauses of the top calls follow from what a call does, over any library and any sink, where the options are within their
/// bounds.
pub fn clauses_follow<L: Library, S: Sink>()
    ensures { (asked : Option Options) (library library' : L) (sink sink' : S) (done : Done)
        → IfSome asked IsWithin
        → IsAnswered L.reads S.writes asked library library' sink sink' done
        → IsTheorem (L.files library) asked (Rose (L.faults library) (L.faults library'))
        (Rose (S.faults sink) (S.faults sink')) (S.written sink) (S.written sink') done }
{
    meanings_are_lawful();
    topologies_fit();
    plain_topologies_fit();
    records_are_one_answer::<Tester>();
    records_are_one_answer::<PlainDriver>();
}
