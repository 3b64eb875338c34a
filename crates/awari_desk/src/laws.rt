//! What follows of a service.

ghost use Rattle.std.specs.Prelude.{◌≡◌, ℕ, List};
ghost use Rattle.awari_table.specs.declared.images.Image.{Image};
ghost use Rattle.awari_desk.specs.Books.{BeginsWith};
ghost use Rattle.awari_desk.specs.Desks.{by_reader};
ghost use Rattle.awari_desk.specs.Service.{Answered, Served};
ghost use Rattle.awari_desk.specs.declared.desks.TheConstants.{MOST_READERS};
ghost use Rattle.awari_desk.specs.declared.requests.TheConstants.{LONGEST_REQUEST};
ghost use Rattle.awari_desk.specs.declared.services.TheConstants.{LONGEST_INPUT};

/// What a reader knows only grows while it is served: each book begins with those before it.
pub fn services_only_grow()
    ensures requests { (first last : List Image) (input output : List ℕ) → Answered by_reader first input output last → BeginsWith last first }
    ensures served { (first last : List Image) (input output : List ℕ) → Served by_reader first input output last → BeginsWith last first }
{}

/// A desk has at most 8 readers. A request that asks for something has at most 200 bytes, and a service
/// takes at most 100,000,000.
pub fn services_have_limits()
    ensures { (MOST_READERS ≡ 8) × (LONGEST_REQUEST ≡ 200) × (LONGEST_INPUT ≡ 100_000_000) }
{}
