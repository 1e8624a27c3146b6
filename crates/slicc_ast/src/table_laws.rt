// What holds of every table, whatever the type F of the names of its forms. These functions do nothing: their contracts
// are the laws.
ghost use Rattle.std.specs.Prelude.{◌≡◌, ◌↔◌, ◌⊎◌, ℕ, zero, suc, Bool, true, false, List, [], ◌∷◌, ◌++◌, Option, Some};
ghost use Rattle.std.specs.List.{Contains, slice_get};
ghost use Rattle.slicc_ast.specs.Prelude.{choices_of, IsFirstFault, IsStop, IsWithin, Stop, Bad, Deep, Passed, Grammar, Row, Rows, first_of, is_nullable, done, form, many, maybe, nested, end, has, is_ahead, Begins, Derives, Extent, IsViable, Matches, IsPredictive, is_predictive, Fails, Passes, Stops, followed_by, refusal, Covers, HaveSameLists, joined};
ghost use Rattle.slicc_ast.specs.Grammar.Row.{token};

/// Where one token ahead decides, a reader that goes by it stops exactly where the list does: at the first token with
/// which the list so far begins no list of the form, or at the first that opens a nesting above the limit, or behind the
/// longest front that is the form. For a finite list of forms it is computed whether one token ahead decides.
pub fn reader_stops_at_the_first_fault<F>()
    ensures reader { (g : Grammar F) → IsPredictive g → (limit : ℕ) (n : F) (tokens : List ℕ) (stop : Stop) → Stops g limit (form n done) end tokens stop → IsFirstFault g limit n tokens stop }
    ensures passes { (g : Grammar F) → IsPredictive g → (limit : ℕ) (n : F) (tokens left : List ℕ) → Passes g limit (form n) tokens left → IsFirstFault g limit n tokens (Passed left) }
    ensures fails { (g : Grammar F) → IsPredictive g → (limit : ℕ) (n : F) (tokens : List ℕ) (stop : Stop) → Fails g limit (form n) tokens stop → IsFirstFault g limit n tokens stop }
    ensures computed { (g : Grammar F) (forms : List F) → ((n : F) → Contains forms n) → is_predictive g forms ≡ true → IsPredictive g }
{}

/// In any table, a list stops at one place and for one reason. It passes whole exactly where it is the parts and no token
/// of it opens a nesting above the limit. At a bad token the list so far is viable, and with the token it isn't. What is
/// the front of a list that begins the parts begins them too.
pub fn lists_stop_in_one_way<F>()
    ensures once { (g : Grammar F) (limit : ℕ) (row : Row F) (rows : Rows F) (tokens : List ℕ) (stop other : Stop) → IsStop g limit row rows tokens stop → IsStop g limit row rows tokens other → stop ≡ other }
    ensures whole { (g : Grammar F) (limit : ℕ) (row : Row F) (rows : Rows F) (tokens : List ℕ) → (Derives g row rows tokens × IsWithin g limit row rows tokens) ↔ IsStop g limit row rows tokens (Passed []) }
    ensures bad { (g : Grammar F) (limit : ℕ) (n : F) (tokens later : List ℕ) (kind : ℕ) → IsFirstFault g limit n tokens (Bad (kind ∷ later)) → (front : List ℕ) × (tokens ≡ front ++ kind ∷ later) × IsViable g n front × (IsViable g n (front ++ kind ∷ []) → ⊥) }
    ensures fronts { (g : Grammar F) (row : Row F) (rows : Rows F) (front rest : List ℕ) → Begins g row rows (front ++ rest) → Begins g row rows front }
    ensures derived { (g : Grammar F) (row : Row F) (rows : Rows F) (tokens : List ℕ) → Derives g row rows tokens → Begins g row rows tokens }
{}

/// Where one token ahead decides, a list is a form by one list of choices at most.
pub fn choices_are_one<F>()
    ensures { (g : Grammar F) → IsPredictive g → (n : F) (tokens : List ℕ) (m k : Matches g Extent.Whole (form n done) end tokens 0) → choices_of m ≡ choices_of k }
{}

/// How the reader comes through parts: one behind another, a token, a form by an alternative, an optional part, a repeated
/// one, an item more with the token before it, and a nesting.
pub fn reader_passes_by_steps<F>()
    ensures both { (g : Grammar F) (depth : ℕ) (part other : Row F → Row F) (tokens between left : List ℕ) → Passes g depth part tokens between → Passes g depth other between left → Passes g depth (followed_by part other) tokens left }
    ensures one { (g : Grammar F) (depth : ℕ) (kinds : List ℕ) (kind : ℕ) (tokens : List ℕ) → has kinds kind ≡ true → Passes g depth (token kinds) (kind ∷ tokens) tokens }
    ensures alternative { (g : Grammar F) (depth : ℕ) (n : F) (place : ℕ) (part : Row F → Row F) (tokens left : List ℕ) → slice_get (g.alternatives n) place ≡ Some (part done) → is_ahead (first_of g (part done)) tokens ≡ true → Passes g depth part tokens left → Passes g depth (form n) tokens left }
    ensures default { (g : Grammar F) (depth : ℕ) (n : F) (place : ℕ) (part : Row F → Row F) (tokens left : List ℕ) → slice_get (g.alternatives n) place ≡ Some (part done) → is_nullable g (part done) ≡ true → is_ahead (g.first n) tokens ≡ false → Passes g depth part tokens left → Passes g depth (form n) tokens left }
    ensures present { (g : Grammar F) (depth : ℕ) (part : Row F → Row F) (tokens left : List ℕ) → is_ahead (first_of g (part done)) tokens ≡ true → Passes g depth part tokens left → Passes g depth (maybe (part done)) tokens left }
    ensures absent { (g : Grammar F) (depth : ℕ) (part : Row F) (tokens : List ℕ) → is_ahead (first_of g part) tokens ≡ false → Passes g depth (maybe part) tokens tokens }
    ensures again { (g : Grammar F) (depth : ℕ) (part : Row F → Row F) (tokens between left : List ℕ) → is_ahead (first_of g (part done)) tokens ≡ true → Passes g depth part tokens between → Passes g depth (many (part done)) between left → Passes g depth (many (part done)) tokens left }
    ensures enough { (g : Grammar F) (depth : ℕ) (part : Row F) (tokens : List ℕ) → is_ahead (first_of g part) tokens ≡ false → Passes g depth (many part) tokens tokens }
    ensures item { (g : Grammar F) (depth : ℕ) (separators : List ℕ) (item : Row F → Row F) (kind : ℕ) (tokens between left : List ℕ) → has separators kind ≡ true → Passes g depth item tokens between → Passes g depth (many (token separators (item done))) between left → Passes g depth (many (token separators (item done))) (kind ∷ tokens) left }
    ensures nesting { (g : Grammar F) (depth : ℕ) (kinds : List ℕ) (part : Row F → Row F) (kind : ℕ) (tokens left : List ℕ) → has kinds kind ≡ true → Passes g depth part tokens left → Passes g (suc depth) (nested kinds (part done)) (kind ∷ tokens) left }
{}

/// How the reader stops in parts: in the first or in one behind it, at a token, in a form, in an optional or repeated part,
/// and at or in a nesting.
pub fn reader_fails_by_steps<F>()
    ensures first { (g : Grammar F) (depth : ℕ) (part other : Row F → Row F) (tokens : List ℕ) (stop : Stop) → Fails g depth part tokens stop → Fails g depth (followed_by part other) tokens stop }
    ensures second { (g : Grammar F) (depth : ℕ) (part other : Row F → Row F) (tokens between : List ℕ) (stop : Stop) → Passes g depth part tokens between → Fails g depth other between stop → Fails g depth (followed_by part other) tokens stop }
    ensures one { (g : Grammar F) (depth : ℕ) (kinds tokens : List ℕ) → is_ahead kinds tokens ≡ false → Fails g depth (token kinds) tokens (refusal g depth tokens) }
    ensures alternative { (g : Grammar F) (depth : ℕ) (n : F) (place : ℕ) (part : Row F → Row F) (tokens : List ℕ) (stop : Stop) → slice_get (g.alternatives n) place ≡ Some (part done) → is_ahead (first_of g (part done)) tokens ≡ true → Fails g depth part tokens stop → Fails g depth (form n) tokens stop }
    ensures default { (g : Grammar F) (depth : ℕ) (n : F) (place : ℕ) (part : Row F → Row F) (tokens : List ℕ) (stop : Stop) → slice_get (g.alternatives n) place ≡ Some (part done) → is_nullable g (part done) ≡ true → is_ahead (g.first n) tokens ≡ false → Fails g depth part tokens stop → Fails g depth (form n) tokens stop }
    ensures unformed { (g : Grammar F) (depth : ℕ) (n : F) (tokens : List ℕ) → g.may_be_empty n ≡ false → is_ahead (g.first n) tokens ≡ false → Fails g depth (form n) tokens (refusal g depth tokens) }
    ensures present { (g : Grammar F) (depth : ℕ) (part : Row F → Row F) (tokens : List ℕ) (stop : Stop) → is_ahead (first_of g (part done)) tokens ≡ true → Fails g depth part tokens stop → Fails g depth (maybe (part done)) tokens stop }
    ensures again { (g : Grammar F) (depth : ℕ) (part : Row F → Row F) (tokens : List ℕ) (stop : Stop) → is_ahead (first_of g (part done)) tokens ≡ true → Fails g depth part tokens stop → Fails g depth (many (part done)) tokens stop }
    ensures later { (g : Grammar F) (depth : ℕ) (part : Row F → Row F) (tokens between : List ℕ) (stop : Stop) → is_ahead (first_of g (part done)) tokens ≡ true → Passes g depth part tokens between → Fails g depth (many (part done)) between stop → Fails g depth (many (part done)) tokens stop }
    ensures nesting { (g : Grammar F) (depth : ℕ) (kinds : List ℕ) (part : Row F → Row F) (kind : ℕ) (tokens : List ℕ) (stop : Stop) → has kinds kind ≡ true → Fails g depth part tokens stop → Fails g (suc depth) (nested kinds (part done)) (kind ∷ tokens) stop }
    ensures unopened { (g : Grammar F) (depth : ℕ) (kinds : List ℕ) (part : Row F) (tokens : List ℕ) → is_ahead kinds tokens ≡ false → Fails g depth (nested kinds part) tokens (refusal g depth tokens) }
    ensures deep { (g : Grammar F) (kinds : List ℕ) (part : Row F) (kind : ℕ) (tokens : List ℕ) → has kinds kind ≡ true → Fails g 0 (nested kinds part) (kind ∷ tokens) (Deep (kind ∷ tokens)) }
{}

/// A list is two rows, one behind the other, where it is a list of the one and then a list of the other. It begins them
/// where it begins the one, or is a list of the one and then begins the other.
pub fn rows_are_in_a_row<F>()
    ensures derived { (g : Grammar F) (row other : Row F) (tokens : List ℕ) → Derives g (joined row other) end tokens ↔ ((front rest : List ℕ) × (tokens ≡ front ++ rest) × Derives g row end front × Derives g other end rest) }
    ensures begun { (g : Grammar F) (row other : Row F) (tokens : List ℕ) → Begins g (joined row other) end tokens ↔ (Begins g row end tokens ⊎ ((front rest : List ℕ) × (tokens ≡ front ++ rest) × Derives g row end front × Begins g other end rest)) }
{}

/// Two tables of the same forms have the same lists where what is an alternative of a form in either is that form in the
/// other. A list then stops at the same place by both, where the same tokens open a nesting anywhere.
pub fn tables_with_the_same_lists<F>()
    ensures covered { (g other : Grammar F) → Covers g other → Covers other g → HaveSameLists g other }
    ensures stops { (g other : Grammar F) → HaveSameLists g other → g.openers ≡ other.openers → (limit : ℕ) (row : Row F) (rows : Rows F) (tokens : List ℕ) (stop : Stop) → IsStop g limit row rows tokens stop → IsStop other limit row rows tokens stop }
{}
