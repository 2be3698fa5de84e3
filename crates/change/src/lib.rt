// One thing of a state changes: a row or a certificate is added, a certificate goes, a fact is set.

#![tactic(auto)]

ghost use Rattle.std.specs.Prelude.{◌≡◌, true, [], ◌∷◌, ◌++◌, suc, ◌+◌, ◌<◌, ◌≤◌, length, get_or, take, drop};
ghost use Rattle.model.specs.Limits.{most_rows, most_certificates, facts};
ghost use Rattle.model.specs.Values.{with_rows, with_certificates, with_fact};
ghost use Rattle.model.specs.Layout.{decode, encode, row_count, certificate_count};
ghost use Rattle.model.specs.Sound.{well_formed};
ghost use Rattle.change.specs.Appended.{Appended};

use model::{
    CERTIFICATE_COUNT_AT, CERTIFICATE_WIDTH, CERTIFICATES_AT, Certificate, ROW_COUNT_AT, Row,
};

// The table that stands behind its count at a place has one entry more. Rows and certificates are three numbers each.
fn append(state: &mut [u16], at: usize, entry: [u16; 3])
    requires { (get_or state.old at 0 < 256) × (at + 769 ≤ length state.old) }
    ensures { Appended state.old state.new at entry }
{
    let end = usize::from(state[at]) * 3 + at + 1;
    state[end..end + 3].copy_from_slice(&entry);
    state[at] += 1;
}

// One row more.
pub fn append_row(state: &mut [u16], row: Row)
    requires { (well_formed state.old ≡ true) × (row_count state.old < most_rows) }
    ensures { state.new ≡ encode (with_rows (decode state.old) ((decode state.old).rows ++ (row ∷ []))) }
{
    let Row { user, role, rule } = row;
    append(state, ROW_COUNT_AT, [user, role, rule]);
}

// One certificate more.
pub fn append_certificate(state: &mut [u16], certificate: Certificate)
    requires { (well_formed state.old ≡ true) × (certificate_count state.old < most_certificates) }
    ensures { state.new ≡ encode (with_certificates (decode state.old) ((decode state.old).certificates ++ (certificate ∷ []))) }
{
    let Certificate {
        appointee,
        kind,
        appointer,
    } = certificate;
    append(state, CERTIFICATE_COUNT_AT, [appointee, kind, appointer]);
}

// Certificate j goes, and those behind it close the gap.
pub fn remove_certificate(state: &mut [u16], j: usize)
    requires { (well_formed state.old ≡ true) × (j < certificate_count state.old) }
    ensures { state.new ≡ encode (with_certificates (decode state.old) (take j (decode state.old).certificates ++ drop (suc j) (decode state.old).certificates)) }
{
    let last = usize::from(state[CERTIFICATE_COUNT_AT]) - 1;
    let gap = j * CERTIFICATE_WIDTH + CERTIFICATES_AT;
    let end = last * CERTIFICATE_WIDTH + CERTIFICATES_AT;
    state.copy_within(gap + CERTIFICATE_WIDTH..end + CERTIFICATE_WIDTH, gap);
    state[end..end + CERTIFICATE_WIDTH].fill(0);
    state[CERTIFICATE_COUNT_AT] -= 1;
}

// The fact has the value.
pub fn set_fact(state: &mut [u16], fact: usize, value: u16)
    requires { (well_formed state.old ≡ true) × (fact < facts) × (value ≤ 1) }
    ensures { state.new ≡ encode (with_fact (decode state.old) fact value) }
{
    state[fact] = value;
}
