//! Laws of authorities and page URLs.
//! RFC 3986, section 3.2; RFC 9309, section 2.3.
ghost use Rattle.path_normal.specs.Laws.{NamedWhereRead, OneSite, ReadsWhereRead, SchemesPartAuthorities};

/// An authority determines its scheme, so what is known of a site by `http` is never confused with what is
/// known by `https`.
pub fn schemes_part_authorities()
    ensures { SchemesPartAuthorities }
{}

/// Pages of one authority share scheme, host and port.
pub fn one_site()
    ensures { OneSite }
{}

/// A page reads as itself if its scheme is read.
pub fn reads_where_read()
    ensures { ReadsWhereRead }
{}

/// An authority reads as itself if its scheme is read.
pub fn named_where_read()
    ensures { NamedWhereRead }
{}
