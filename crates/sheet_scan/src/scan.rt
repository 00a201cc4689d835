// The lines of a sheet's entries, each at its own place.
ghost use Rattle.std.specs.Prelude.{◌≡◌, true, ◌&&◌, ◌*◌, ◌≤◌, length};
ghost use Rattle.pyramid.specs.Places.{plane_places};
ghost use Rattle.pyramid.specs.Sides.{is_sides, is_depth};
ghost use Rattle.text.specs.Lines.{five, lines_at, fives_at};
ghost use Rattle.sheet_text.specs.Rows.{values_of};
ghost use Rattle.sheet_text.specs.Sheet.{is_some};
ghost use Rattle.sheet_scan.specs.Scan.{stored_along, fit_along};

// Whether two tests hold.
pub fn both(a: bool, b: bool) -> bool
    ensures { result ≡ (a && b) }
{
    if a {
        return b;
    }
    false
}

// What one pass over the lines of the entries finds.
#[derive(Drop)]
pub struct Survey {
    // The place past the lines.
    pub past: usize,
    // Whether they stand at places of the plane, rising in plane order, with values that are not 0.
    pub rising: bool,
    // Whether their values are in their ranges.
    pub fitting: bool,
}

// Passes the lines from the place `at` on.
pub fn look_along(s: &[u8], at: usize, height: u32, width: u32, levels: u32) -> Survey
    requires { (is_sides height width ≡ true) × (is_depth levels height width ≡ true) × (at ≤ length s.now) }
    ensures { (result.past ≡ fives_at s.now at) × (result.rising ≡ is_some (values_of (plane_places levels height width) (lines_at five s.now at))) × (result.fitting ≡ fit_along levels (plane_places levels height width) (lines_at five s.now at)) }
{
    let mut k = crate::front::first(height, width, levels);
    let mut p = at;
    let mut rising = true;
    let mut fitting = true;
    while let Some(f) = text::lines::read_five(s, p) {
        k = crate::front::seek(k, f, height, width);
        if k.left == 0 {
            let past = text::lines::pass_fives(s, f.next);
            return Survey {
                past,
                rising: false,
                fitting,
            };
        }
        let v = f.value;
        let zero = integers::is_zero(v);
        rising = both(rising, !zero);
        let here = crate::front::walk_to(k, f);
        let fits = places::checks::fits_range(levels, here, v);
        fitting = both(fitting, fits);
        p = f.next;
        k = crate::front::past_line(k, f);
    }
    Survey {
        past: p,
        rising,
        fitting,
    }
}

// Stores the values of these lines in a plane, each at its own place, and 0 at each place without a line.
pub fn store_values(plane: &mut [i64], s: &[u8], at: usize, height: u32, width: u32, levels: u32)
    requires width_value { (is_sides height width ≡ true) × (is_depth levels height width ≡ true) }
    requires plane_len { length plane.old ≡ width * height }
    ensures { plane.new ≡ stored_along height (plane_places levels height width) (lines_at five s.now at) plane.old }
{
    slices::clear(plane);
    let mut k = crate::front::first(height, width, levels);
    let mut p = at;
    while let Some(f) = text::lines::read_five(s, p) {
        k = crate::front::seek(k, f, height, width);
        if k.left == 0 {
            return;
        }
        let here = crate::front::walk_to(k, f);
        let i = places::checks::index_of(here, height, width);
        plane[i] = f.value;
        p = f.next;
        k = crate::front::past_line(k, f);
    }
}
