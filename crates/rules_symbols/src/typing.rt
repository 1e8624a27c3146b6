// Typing: what the names and the expressions of bodies stand for.
ghost use Rattle.std.specs.Prelude.{◌≡◌, ℕ, Some, None, Option, List, [], slice_get};
ghost use Rattle.slicc_ast.specs.declared.tree.declaration.Formals.{Formals};
ghost use Rattle.slicc_ast.specs.declared.tree.declaration.Function.TheVariants.{Plain};
ghost use Rattle.slicc_ast.specs.declared.tree.declaration.Pairs.{Pairs};
ghost use Rattle.slicc_ast.specs.declared.tree.expression.Expr.{Expr};
ghost use Rattle.slicc_ast.specs.declared.tree.item.Tree.{Tree};
ghost use Rattle.slicc_ast.specs.declared.tree.machine.Action.{Action};
ghost use Rattle.slicc_ast.specs.declared.tree.machine.InPort.{InPort};
ghost use Rattle.slicc_ast.specs.declared.tree.machine.Machine.{Machine};
ghost use Rattle.slicc_ast.specs.declared.tree.name.Name.{Name};
ghost use Rattle.slicc_ast.specs.declared.tree.name.TypeName.{TypeName};
ghost use Rattle.slicc_ast.specs.declared.tree.span.Span.{Span};
ghost use Rattle.slicc_ast.specs.declared.tree.statement.Block.{Block};
ghost use Rattle.rules_symbols.specs.IsAmong.{IsAmong};
ghost use Rattle.slicc_plan.specs.Declarations.{in_port};
ghost use Rattle.slicc_plan.specs.Environment.{local_name};
ghost use Rattle.slicc_plan.specs.Prelude.{Environment, IsAccepted, action, action_environment, binding, declared, enqueued, function, function_environment, in_enqueue, in_peek, local_meaning, machine_declarations, machines_of, peeked, port_environment, typed};
ghost use Rattle.rules_symbols.specs.Prelude.{AreTyped, IsTyped, IsTypedIn};

/// In a body of an accepted protocol, whose names stand for things that are known, an expression in which nothing is broken stands for
/// something that is known: never for `new`, and a value of a type that has a kind in the machine, a message of a structure, a table, a
/// port with its messages, or nothing.
pub fn expressions_are_typed()
    ensures { (k : ℕ) (env : Environment) (e : Expr) → IsTypedIn k env
        → (typed env e).broken ≡ [] → IsTyped env.trees env.machine (typed env e).meaning }
{}

/// The names of bodies stand for things that are known as the body begins, after a declaration in which nothing is broken, and in the
/// blocks of `peek` and `enqueue`.
pub fn names_of_bodies_are_typed()
    ensures ports { (trees : List Tree) (k : ℕ) (m : Machine) → IsAccepted trees
        → slice_get (machines_of trees) k ≡ Some m → IsTypedIn k (port_environment trees m) }
    ensures actions { (trees : List Tree) (k : ℕ) (m : Machine) → IsAccepted trees
        → slice_get (machines_of trees) k ≡ Some m → IsTypedIn k (action_environment trees m) }
    ensures functions { (trees : List Tree) (k : ℕ) (m : Machine) (kind : TypeName) (called : Name)
        (formals : Formals) (attributes : Pairs) (body : Block) (span : Span)
        → IsAccepted trees → slice_get (machines_of trees) k ≡ Some m
        → IsAmong (machine_declarations m)
        (function (Plain kind called formals attributes (Some body) span))
        → IsTypedIn k (function_environment trees m kind formals.items) }
    ensures locals { (k : ℕ) (env : Environment) (kind : TypeName) (called : Name) (e : Expr)
        → IsTypedIn k env → declared env kind e ≡ []
        → IsTypedIn k (binding env (local_name called.text (local_meaning env kind))) }
    ensures peeked { (k : ℕ) (env : Environment) (span : Span) (port : Name) (message : TypeName)
        → IsTypedIn k env → peeked env span port message ≡ [] → IsTypedIn k (in_peek env port) }
    ensures made { (k : ℕ) (env : Environment) (span : Span) (port : Name) (message : TypeName)
        (latency : Option Expr) → IsTypedIn k env → enqueued env span port message latency ≡ []
        → IsTypedIn k (in_enqueue env port) }
{}

/// The bodies of an accepted protocol are typed: each expression in them stands for something that is known and fits what is wanted of
/// it, each name of a port or a table stands for such a one, and each form stands in a body where it is allowed.
pub fn bodies_are_typed()
    ensures ports { (trees : List Tree) (k : ℕ) (m : Machine) (p : InPort) → IsAccepted trees
        → slice_get (machines_of trees) k ≡ Some m → IsAmong (machine_declarations m) (in_port p)
        → AreTyped (port_environment trees m) p.body.statements }
    ensures actions { (trees : List Tree) (k : ℕ) (m : Machine) (a : Action) → IsAccepted trees
        → slice_get (machines_of trees) k ≡ Some m → IsAmong (machine_declarations m) (action a)
        → AreTyped (action_environment trees m) a.body.statements }
    ensures functions { (trees : List Tree) (k : ℕ) (m : Machine) (kind : TypeName) (called : Name)
        (formals : Formals) (attributes : Pairs) (body : Block) (span : Span)
        → IsAccepted trees → slice_get (machines_of trees) k ≡ Some m
        → IsAmong (machine_declarations m)
        (function (Plain kind called formals attributes (Some body) span))
        → AreTyped (function_environment trees m kind formals.items) body.statements }
{}
