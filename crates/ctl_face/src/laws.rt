// What holds of every controller. These functions do nothing: their contracts are the laws.
ghost use Rattle.std.specs.Prelude.{◌≡◌, ◌<◌, ◌≤◌, ◌+◌, ◌^◌, ℕ, ℤ, List, Ok, Some, slice_get};
ghost use Rattle.std.specs.List.{All};
ghost use Rattle.ruby_value.specs.declared.asked.Asked.{Asked};
ghost use Rattle.ruby_value.specs.declared.message.Message.{Message};
ghost use Rattle.ruby_value.specs.declared.setup.MachineSetup.{MachineSetup};
ghost use Rattle.ruby_value.specs.declared.value.Block.{Block};
ghost use Rattle.ruby_value.specs.declared.value.Ref.{Ref};
ghost use Rattle.ruby_value.specs.declared.value.Value.{Value};
ghost use Rattle.ctl_face.specs.declared.message_at.MessageAt.{MessageAt};
ghost use Rattle.ctl_face.specs.declared.parcel.Credit.{Credit};
ghost use Rattle.ctl_face.specs.declared.parcel.Parcel.TheVariants as parcel;
ghost use Rattle.ctl_face.specs.declared.routes.Routes.{Routes};
ghost use Rattle.ctl_face.specs.Prelude.{again, allocate, probe, DriverAct, IsDriverAct, after_driver_acts, at_cycle, with_one_fired, with_stop, with_arrival, with_request, with_wake_up, without_first_answer, read_back, write_back, Ctl, Mail, deallocate, messages_among, with_parcel_arrival, enqueue, Fits, IsLawful, last_cycle, FitsReceiver, SendsFit, get, message_at, SameScan, IsController, IsInRun, IsMachine, AlwaysKeeps, Keeps, KeepsFits, KeepsWhere, Actor, LocalView, TakesFields, opening_ctl, pop, required_front, recycle, HasRoutes, NobodyElseReceives, RoutesFit, scan_view, Sending, copy_limit, send, HasStates, TakesField, TakesMessage, set, stall, set_state, touch, wake, wake_all};
ghost use Rattle.ruby_value.specs.Prelude.{IsLine, IsRequest};

/// A controller as a run begins fits its machine, in that cycle and in each later one.
pub fn opening_controllers_fit()
    ensures { (machine : MachineSetup) (me now : ℕ) → IsMachine machine
        → Fits machine me (opening_ctl machine) now }
{}

/// As a scan begins with a controller that fits its machine, the local is lawful.
pub fn scans_begin_lawful()
    ensures { (machine : MachineSetup) (actor : Actor) (now : ℕ) (ctl : Ctl) → IsMachine machine
        → HasRoutes machine actor.me actor.routes → now ≤ last_cycle → Fits machine actor.me ctl now
        → IsLawful (scan_view machine actor now ctl) }
{}

/// Routes that fit a run are, for each of its controllers, routes that its acts may go by, and have no buffers for anyone else.
pub fn routes_fit_each_controller()
    ensures nobody_else { (machines : List MachineSetup) (ranges : List (ℕ × ℕ))
        (routes : Routes)
        → RoutesFit machines ranges routes → NobodyElseReceives ranges routes }
    ensures each { (machines : List MachineSetup) (ranges : List (ℕ × ℕ)) (m : MachineSetup)
        (actor : Actor)
        → IsController machines ranges m actor → HasRoutes m actor.me actor.routes }
{}

/// Each copy that a controller of a run sends goes to one of the run's controllers, and is in a buffer there whose messages have
/// fields like its own; and so is each that a lawful local of a run has posted.
pub fn copies_fit_their_receivers()
    ensures posted { (machines : List MachineSetup) (ranges : List (ℕ × ℕ)) (v : LocalView)
        → IsInRun machines ranges v
        → All (FitsReceiver machines ranges) (messages_among v.acts.posted) }
    ensures sent { (machines : List MachineSetup) (ranges : List (ℕ × ℕ)) (m : MachineSetup)
        (actor : Actor)
        → IsController machines ranges m actor → SendsFit machines ranges m actor }
{}

/// What holds of each controller of a machine holds after each act on its tables.
pub fn table_calls_keep_what_holds()
    ensures set { (r : Ref) (field : ℕ) (value : Value) → IsLine r.line
        → KeepsWhere (λ v. TakesField v r.table field value) (λ v. set v r field value) }
    ensures allocate { (table line : ℕ) → IsLine line → Keeps (λ v. allocate v table line) }
    ensures deallocate { (table line : ℕ) → Keeps (λ v. deallocate v table line) }
    ensures touch { (table line : ℕ) → Keeps (λ v. touch v table line) }
    ensures set_state { (v : LocalView) (line state : ℕ) → HasStates v → IsLine line → IsLawful v
        → IsLawful (set_state v line state) }
{}

/// What holds of each controller of a machine holds after each act on its messages and requests, and after a mark.
pub fn message_calls_keep_what_holds()
    ensures pop { (buffer : ℕ) → Keeps (λ v. pop v buffer) }
    ensures stall { (buffer line : ℕ) → IsLine line → Keeps (λ v. stall v buffer line) }
    ensures wake { (line : ℕ) → AlwaysKeeps (λ v. wake v line) }
    ensures wake_all { AlwaysKeeps wake_all }
    ensures recycle { (buffer : ℕ) (latency : ℤ) → Keeps (λ v. recycle v buffer latency) }
    ensures enqueue { (buffer : ℕ) (latency : ℤ) (fields : List Value)
        → KeepsWhere (λ v. TakesMessage v buffer fields) (λ v. enqueue v buffer latency fields) }
    ensures read_back { (line : ℕ) (block : Block) → Keeps (λ v. read_back v line block) }
    ensures write_back { (line : ℕ) (block : Block) → Keeps (λ v. write_back v line block) }
    ensures again { AlwaysKeeps again }
{}

/// What holds of each controller of a machine holds after each act between its scans: the arrival of another actor's message or
/// of a credit, a mark, the beginning of a later cycle, one transition more that fired, a stop, a request, an answer that is taken,
/// and so all that a driver does at its turn, which leaves the mail as it is. It holds in later cycles, too, where nothing happens to
/// the controller.
pub fn acts_between_scans_keep_what_holds()
    ensures arrival { (machine : MachineSetup) (me now : ℕ) (ctl : Ctl) (m : Message)
        → TakesFields machine.buffers m.buffer m.fields → ¬ (m.number.sender ≡ me)
        → Fits machine me ctl now → Fits machine me (with_arrival ctl m) now }
    ensures credit { (c : Credit) → KeepsFits (λ ctl. with_parcel_arrival ctl (parcel.Credit c)) }
    ensures wake_up { (cycle : ℕ) → KeepsFits (λ ctl. with_wake_up ctl cycle) }
    ensures later { (machine : MachineSetup) (me old now : ℕ) (ctl : Ctl) → old ≤ now
        → Fits machine me ctl old → Fits machine me ctl now }
    ensures cycle { (machine : MachineSetup) (me old now : ℕ) (ctl : Ctl) → old < now
        → Fits machine me ctl old → Fits machine me (at_cycle ctl now) now }
    ensures fired { KeepsFits with_one_fired }
    ensures stop { KeepsFits with_stop }
    ensures request { (asked : Asked) → IsRequest asked → KeepsFits
        (λ ctl. with_request ctl asked) }
    ensures answer { KeepsFits without_first_answer }
    ensures driver { (acts : List DriverAct) → All IsDriverAct acts → KeepsFits
        (λ ctl. after_driver_acts ctl acts) }
    ensures driver_mail { (acts : List DriverAct) (ctl : Ctl)
        → (after_driver_acts ctl acts).mail ≡ ctl.mail }
{}

/// Of a lawful local, numbers of 64 bits are left for all the copies that it may send in a cycle, and for as many words that it
/// may draw for them.
pub fn copies_have_numbers()
    ensures { (v : LocalView) → IsLawful v
        → (v.ctl.mail.sent + copy_limit < 2 ^ 64) × (v.ctl.mail.drawn + copy_limit < 2 ^ 64) }
{}

/// What is read of a controller that fits its machine has its kinds: the value of a field is one of the field's kind, what a
/// cache names for replacement is a line, and the fields of a front are those of a message of its buffer, which is the one that
/// was asked for.
pub fn reads_have_their_kinds()
    ensures get { (v : LocalView) (r : Ref) (field : ℕ) (value : Value) → IsLawful v
        → get v r field ≡ Ok value → TakesField v r.table field value }
    ensures front { (v : LocalView) (buffer : ℕ) (m : Message) → IsLawful v
        → required_front v buffer ≡ Ok m → TakesMessage v m.buffer m.fields }
    ensures probe { (v : LocalView) (table line l : ℕ) → IsLawful v → probe v table line ≡ Ok l
        → IsLine l }
    ensures front_buffer { (v : LocalView) (buffer : ℕ) (m : Message)
        → required_front v buffer ≡ Ok m
        → m.buffer ≡ buffer }
{}

/// A place of a message stays good through a whole scan, and has the same message.
pub fn places_stay_good()
    ensures { (v w : LocalView) (at : MessageAt) → SameScan v w → message_at w at ≡ message_at v at }
{}
