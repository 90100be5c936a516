// Walks along the fields of a job's bytes, from a place on.
ghost use Rattle.std.specs.Prelude.{◌≡◌, drop};
ghost use Rattle.floor.specs.Lists.{all};
ghost use Rattle.floor.specs.Fields.{after_fields};
ghost use Rattle.floor.specs.Jobs.{star_ok};
ghost use Rattle.stars.specs.Rooms.{all_from};
ghost use Rattle.jobs.specs.Shapes.{stars_at, entries_ok};

// Test 4: whether every entry of the n stars from a place on may stand where it does.
pub fn entries_pass(job: &[u8], from: usize, n: u8) -> bool
    ensures { result ≡ all_from (entries_ok n) 4 (stars_at n (drop from job.now)) }
{
    let count = usize::from(n);
    let mut at = from;
    for i in 0..count {
        if !stars::star::entries_ok(fields::value_at(job, at), n, 4 + i) {
            return false;
        }
        at = fields::after_at(job, at);
    }
    true
}

// Test 5: whether each of the n stars from a place on is one. It has a walk of its own: as a closure of one walk for both it would take a room's number that it
// does not ask for.
pub fn stars_pass(job: &[u8], from: usize, n: u8) -> bool
    ensures { result ≡ all star_ok (stars_at n (drop from job.now)) }
{
    let count = usize::from(n);
    let mut at = from;
    for i in 0..count {
        if !stars::star::star_ok(fields::value_at(job, at)) {
            return false;
        }
        at = fields::after_at(job, at);
    }
    true
}

// The place behind the first k fields.
pub fn place_after(job: &[u8], k: usize) -> usize
    ensures { drop result job.now ≡ after_fields k job.now }
{
    let mut at: usize = 0;
    for i in 0..k {
        at = fields::after_at(job, at);
    }
    at
}
