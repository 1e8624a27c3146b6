// Functions of a machine of an accepted protocol, by their names.
ghost use Rattle.std.specs.Prelude.{◌≡◌, ◌⊎◌, ℕ, true, None, Some, List, codes, map, slice_get};
ghost use Rattle.ruby_symbols.specs.Kinds.{kind_of_enumeration};
ghost use Rattle.ruby_symbols.specs.Names.{function_named};
ghost use Rattle.ruby_symbols.specs.States.{get_state_arguments, set_permission_arguments, set_state_arguments};
ghost use Rattle.ruby_value.specs.declared.kind.Kind.{Kind};
ghost use Rattle.slicc_ast.specs.declared.tree.declaration.Formal.{Formal};
ghost use Rattle.slicc_ast.specs.declared.tree.declaration.Formals.{Formals};
ghost use Rattle.slicc_ast.specs.declared.tree.declaration.Function.TheVariants.{Plain};
ghost use Rattle.slicc_ast.specs.declared.tree.declaration.Pairs.{Pairs};
ghost use Rattle.slicc_ast.specs.declared.tree.item.Tree.{Tree};
ghost use Rattle.slicc_ast.specs.declared.tree.machine.Decl.TheVariants as decl;
ghost use Rattle.slicc_ast.specs.declared.tree.machine.Machine.{Machine};
ghost use Rattle.slicc_ast.specs.declared.tree.name.Name.{Name};
ghost use Rattle.slicc_ast.specs.declared.tree.name.TypeName.{TypeName};
ghost use Rattle.slicc_ast.specs.declared.tree.span.Span.{Span};
ghost use Rattle.slicc_ast.specs.declared.tree.statement.Block.{Block};
ghost use Rattle.rules_symbols.specs.IsAmong.{IsAmong};
ghost use Rattle.slicc_plan.specs.declared.built_in.BuiltInType.TheVariants.{Void};
ghost use Rattle.slicc_plan.specs.Prelude.{IsAccepted, KnownType, built_in, first_named, formal_symbol, function, is_value, kind_in, machine_declarations, machine_symbols, machines_of, symbols_of, type_in, value_kind, within};
ghost use Rattle.rules_symbols.specs.Prelude.{argument_kind};

/// A function with a body is found by its name, with its place between the machine's braces. Each formal has a type of values and its
/// symbol that type's kind, and so has what the function answers, but for `void`. A name that the machine doesn't declare, and that of
/// a prototype, finds no function.
pub fn functions_have_kinds()
    ensures found { (trees : List Tree) (k : ℕ) (m : Machine) (kind : TypeName) (called : Name)
        (formals : Formals) (attributes : Pairs) (body : Block) (span : Span) (text : List ℕ)
        → IsAccepted trees → slice_get (machines_of trees) k ≡ Some m
        → first_named text (machine_declarations m)
        ≡ Some (function (Plain kind called formals attributes (Some body) span))
        → (n : ℕ) × (j : ℕ) × (function_named (machine_symbols trees k m) text ≡ Some n)
        × (slice_get (machine_symbols trees k m).functions n ≡ Some (record {
          name = called.text;
          declaration = j;
          formals = map (formal_symbol trees m) formals.items;
          result = kind_in trees m kind;
        }))
        × (slice_get m.declarations j
        ≡ Some (decl.Function (Plain kind called formals attributes (Some body) span))) }
    ensures undeclared { (trees : List Tree) (k : ℕ) (m : Machine) (text : List ℕ)
        → IsAccepted trees → slice_get (machines_of trees) k ≡ Some m
        → first_named text (machine_declarations m) ≡ None
        → function_named (machine_symbols trees k m) text ≡ None }
    ensures prototypes { (trees : List Tree) (k : ℕ) (m : Machine) (kind : TypeName) (called : Name)
        (formals : Formals) (attributes : Pairs) (span : Span) (text : List ℕ)
        → IsAccepted trees → slice_get (machines_of trees) k ≡ Some m
        → first_named text (machine_declarations m)
        ≡ Some (function (Plain kind called formals attributes None span))
        → function_named (machine_symbols trees k m) text ≡ None }
    ensures formals { (trees : List Tree) (k : ℕ) (m : Machine) (kind : TypeName) (called : Name)
        (formals : Formals) (attributes : Pairs) (body : Block) (span : Span) (f : Formal)
        → IsAccepted trees → slice_get (machines_of trees) k ≡ Some m
        → IsAmong (machine_declarations m)
        (function (Plain kind called formals attributes (Some body) span)) → IsAmong formals.items f
        → (t : KnownType) × (its : Kind) × (type_in trees (within m) f.kind.text ≡ Some t)
        × (is_value m t ≡ true) × (value_kind trees m t ≡ Some its)
        × ((formal_symbol trees m f).kind ≡ its) }
    ensures answers { (trees : List Tree) (k : ℕ) (m : Machine) (kind : TypeName) (called : Name)
        (formals : Formals) (attributes : Pairs) (body : Block) (span : Span)
        → IsAccepted trees → slice_get (machines_of trees) k ≡ Some m
        → IsAmong (machine_declarations m)
        (function (Plain kind called formals attributes (Some body) span))
        → (t : KnownType) × (type_in trees (within m) kind.text ≡ Some t)
        × ((t ≡ built_in Void) × (kind_in trees m kind ≡ None)
        ⊎ (is_value m t ≡ true) × (value_kind trees m t ≡ kind_in trees m kind)) }
{}

/// What the functions of states take and answer has the kinds of the machine's own types: of references to its TBEs and its entries,
/// of addresses and of its states.
pub fn state_functions_have_kinds()
    ensures reading { (trees : List Tree) (k : ℕ) (m : Machine) (kind : TypeName) (called : Name)
        (formals : Formals) (attributes : Pairs) (body : Block) (span : Span)
        → IsAccepted trees → slice_get (machines_of trees) k ≡ Some m
        → first_named (codes "getState") (machine_declarations m)
        ≡ Some (function (Plain kind called formals attributes (Some body) span))
        → (kind_in trees m kind
        ≡ kind_of_enumeration (symbols_of trees) (machine_symbols trees k m).states)
        × (map (λ (f : Formal). kind_in trees m f.kind) formals.items
        ≡ map (argument_kind (symbols_of trees) (machine_symbols trees k m))
        (get_state_arguments (machine_symbols trees k m))) }
    ensures writing { (trees : List Tree) (k : ℕ) (m : Machine) (kind : TypeName) (called : Name)
        (formals : Formals) (attributes : Pairs) (body : Block) (span : Span)
        → IsAccepted trees → slice_get (machines_of trees) k ≡ Some m
        → first_named (codes "setState") (machine_declarations m)
        ≡ Some (function (Plain kind called formals attributes (Some body) span))
        → (kind_in trees m kind ≡ None)
        × (map (λ (f : Formal). kind_in trees m f.kind) formals.items
        ≡ map (argument_kind (symbols_of trees) (machine_symbols trees k m))
        (set_state_arguments (machine_symbols trees k m))) }
    ensures permitting { (trees : List Tree) (k : ℕ) (m : Machine) (kind : TypeName) (called : Name)
        (formals : Formals) (attributes : Pairs) (body : Block) (span : Span)
        → IsAccepted trees → slice_get (machines_of trees) k ≡ Some m
        → first_named (codes "setAccessPermission") (machine_declarations m)
        ≡ Some (function (Plain kind called formals attributes (Some body) span))
        → (kind_in trees m kind ≡ None)
        × (map (λ (f : Formal). kind_in trees m f.kind) formals.items
        ≡ map (argument_kind (symbols_of trees) (machine_symbols trees k m))
        (set_permission_arguments (machine_symbols trees k m))) }
{}
