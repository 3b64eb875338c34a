//! The laws of certificates: tables, of any kind, in which each board keeps the rules.

ghost use Rattle.std.specs.Prelude.{◌≡◌, ℕ, ◌<◌, ◌↔◌, List, ℤ, sum};
ghost use Rattle.awari_board.specs.Rules.{IsBoard};
ghost use Rattle.awari_game.specs.Plays.{Ends};
ghost use Rattle.awari_table.specs.Certificate.{Table};
ghost use Rattle.awari_theory.specs.Older.{IsCertificate};
ghost use Rattle.awari_theory.specs.Secures.{Secures, Soon, Comes};
ghost use Rattle.awari_theory.specs.Worth.{IsWorth, IsWorthBelow, IsWorthBy};
ghost use Rattle.awari_theory.specs.Promises.{IsRightWorth};

/// Every play that is long enough comes to an outcome on the way.
pub fn plays_end()
    ensures { (p : List ℕ) → IsBoard p → Ends p }
{}

/// The first mover gets at least the value by following a certificate's plans. A second mover who
/// follows them lets the first have no more.
pub fn plans_secure()
    ensures { (t : Table) (levels limit : ℕ) → IsCertificate t levels limit → (p : List ℕ) → IsBoard p → sum p < levels → Secures t limit p }
{}

/// While the side with the positive value follows the plans, a capture or the end comes within the
/// distance.
pub fn plans_are_soon()
    ensures { (t : Table) (levels limit : ℕ) → IsCertificate t levels limit → (p : List ℕ) → IsBoard p → sum p < levels → Soon t p }
{}

/// If both sides follow the plans, the play comes to an outcome, which is the value.
pub fn plans_come_to_the_value()
    ensures { (t : Table) (levels limit : ℕ) → IsCertificate t levels limit → (p : List ℕ) → IsBoard p → sum p < levels → Comes t limit p }
{}

/// The value is what the board is worth.
pub fn values_are_worths()
    ensures { (t : Table) (levels limit : ℕ) → IsCertificate t levels limit → (p : List ℕ) → IsBoard p → sum p < levels → IsRightWorth t p }
{}

/// A board has at most one worth. The definition counts stones so that it comes to an end; the count
/// that one begins with does not matter.
pub fn worths_are_unique()
    ensures unique { (p : List ℕ) (v w : ℤ) → IsWorth p v → IsWorth p w → v ≡ w }
    ensures by_captures { (p : List ℕ) (w : ℤ) → IsBoard p → IsWorth p w ↔ IsWorthBy IsWorth p w }
    ensures unbounded { (n : ℕ) (p : List ℕ) (w : ℤ) → sum p < n → IsWorthBelow n p w ↔ IsWorth p w }
{}
