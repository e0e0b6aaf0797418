// The sites of one place among all: behind those of the package variables, sites stand in the order of places.
ghost use Rattle.std.specs.Prelude.{◌≡◌, ℕ, ◌<◌, ◌≤◌, Some, length, slice_get};
ghost use Rattle.argot_plain.specs.WellFormed.{WellFormed};
ghost use Rattle.argot_plain.specs.declared.sites.Site.{Site as Sites};

use argot_plain::Program;

/// The number of the first site that belongs to the place or to one behind it.
pub(crate) fn first_site(program: &Program, place: u32) -> usize
    ensures well { WellFormed program.now }
    ensures from { length program.now.globals ≤ result }
    ensures inside { result ≤ length program.now.sites }
    ensures before { (n : ℕ) (site : Sites) → slice_get program.now.sites n ≡ Some site → length program.now.globals ≤ n → n < result → site.place < place }
    ensures behind { (n : ℕ) (site : Sites) → slice_get program.now.sites n ≡ Some site → result ≤ n → place ≤ site.place }
{
    let mut high = program.site_count();
    let mut low = program.globals().len();
    while low < high {
        let middle = low + (high - low) / 2;
        if program.site(middle).place < place {
            low = middle + 1;
        } else {
            high = middle;
        }
    }
    low
}

/// Where the sites of the place end, which begin here.
pub(crate) fn end_of_sites(program: &Program, first: usize, place: u32) -> usize
    requires well { WellFormed program.now }
    requires from { length program.now.globals ≤ first }
    requires inside { first ≤ length program.now.sites }
    requires behind { (n : ℕ) (site : Sites) → slice_get program.now.sites n ≡ Some site → first ≤ n → place ≤ site.place }
    ensures from { first ≤ result }
    ensures inside { result ≤ length program.now.sites }
    ensures here { (n : ℕ) (site : Sites) → slice_get program.now.sites n ≡ Some site → first ≤ n → n < result → site.place ≡ place }
    ensures behind { (n : ℕ) (site : Sites) → slice_get program.now.sites n ≡ Some site → result ≤ n → place < site.place }
{
    let count = program.site_count();
    for n in first..count {
        if program.site(n).place > place {
            return n;
        }
    }
    count
}
