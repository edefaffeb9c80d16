//! Rows of `json`: a block's line as written and as found, to the byte.

use crate::rows::Row;
use crate::running::JSON;
use s66_test_search::ONE_LOAD;

/// Looks for the best order with facts.
const JSON_DEEP: &[&str] = &["s66", "json", "--order", "--deep"];

/// Looks for it by a search.
const JSON_ORDER: &[&str] = &["s66", "json", "--order", "--block", "1", "--workers", "1"];

/// One block as it is written.
const WRITTEN: &str =
    "{\"schema\":1,\"block\":1,\"label\":null,\"entry\":null,\"line\":1,\"last_line\":3,\"count\":3,\"parcels\":3,\"instructions\":[{\"n\":1,\"line\":1,\"text\":\"SA1 A1+B1\",\"unit\":\"increment\",\"parcels\":1,\"works\":3,\"reads\":[\"A1\",\"B1\"],\"writes\":[\"A1\",\"X1\"],\"memory\":\"load\",\"after\":[]},{\"n\":2,\"line\":2,\"text\":\"BX6 X1\",\"unit\":\"boolean\",\"parcels\":1,\"works\":3,\"reads\":[\"X1\"],\"writes\":[\"X6\"],\"memory\":null,\"after\":[1]},{\"n\":3,\"line\":3,\"text\":\"BX7 X2\",\"unit\":\"boolean\",\"parcels\":1,\"works\":3,\"reads\":[\"X2\"],\"writes\":[\"X7\"],\"memory\":null,\"after\":[]}],\"written\":{\"time\":16,\"no\":0,\"order\":[1,2,3],\"at\":[{\"n\":1,\"parcel\":0,\"issue\":0,\"start\":0,\"done\":8,\"free\":4,\"results\":[{\"register\":\"A1\",\"done\":3},{\"register\":\"X1\",\"done\":8}],\"waits\":[]},{\"n\":2,\"parcel\":1,\"issue\":1,\"start\":8,\"done\":11,\"free\":12,\"results\":[{\"register\":\"X6\",\"done\":11}],\"waits\":[{\"conflict\":\"second\",\"from\":1,\"to\":8,\"for\":\"register\",\"name\":\"X1\",\"by\":1}]},{\"n\":3,\"parcel\":2,\"issue\":12,\"start\":12,\"done\":15,\"free\":16,\"results\":[{\"register\":\"X7\",\"done\":15}],\"waits\":[{\"conflict\":\"first\",\"from\":2,\"to\":12,\"for\":\"unit\",\"name\":\"boolean\",\"by\":2}]}],\"path\":[1,2,3],\"steps\":[8,4,4],\"lost\":{\"first\":10,\"second\":7,\"third\":0}},\"found\":null}\n";

/// And in the best order.
const FOUND: &str =
    "{\"schema\":1,\"block\":1,\"label\":null,\"entry\":null,\"line\":1,\"last_line\":3,\"count\":3,\"parcels\":3,\"instructions\":[{\"n\":1,\"line\":1,\"text\":\"SA1 A1+B1\",\"unit\":\"increment\",\"parcels\":1,\"works\":3,\"reads\":[\"A1\",\"B1\"],\"writes\":[\"A1\",\"X1\"],\"memory\":\"load\",\"after\":[]},{\"n\":2,\"line\":2,\"text\":\"BX6 X1\",\"unit\":\"boolean\",\"parcels\":1,\"works\":3,\"reads\":[\"X1\"],\"writes\":[\"X6\"],\"memory\":null,\"after\":[1]},{\"n\":3,\"line\":3,\"text\":\"BX7 X2\",\"unit\":\"boolean\",\"parcels\":1,\"works\":3,\"reads\":[\"X2\"],\"writes\":[\"X7\"],\"memory\":null,\"after\":[]}],\"written\":{\"time\":16,\"no\":0,\"order\":[1,2,3],\"at\":[{\"n\":1,\"parcel\":0,\"issue\":0,\"start\":0,\"done\":8,\"free\":4,\"results\":[{\"register\":\"A1\",\"done\":3},{\"register\":\"X1\",\"done\":8}],\"waits\":[]},{\"n\":2,\"parcel\":1,\"issue\":1,\"start\":8,\"done\":11,\"free\":12,\"results\":[{\"register\":\"X6\",\"done\":11}],\"waits\":[{\"conflict\":\"second\",\"from\":1,\"to\":8,\"for\":\"register\",\"name\":\"X1\",\"by\":1}]},{\"n\":3,\"parcel\":2,\"issue\":12,\"start\":12,\"done\":15,\"free\":16,\"results\":[{\"register\":\"X7\",\"done\":15}],\"waits\":[{\"conflict\":\"first\",\"from\":2,\"to\":12,\"for\":\"unit\",\"name\":\"boolean\",\"by\":2}]}],\"path\":[1,2,3],\"steps\":[8,4,4],\"lost\":{\"first\":10,\"second\":7,\"third\":0}},\"found\":{\"time\":12,\"no\":0,\"order\":[1,3,2],\"at\":[{\"n\":1,\"parcel\":0,\"issue\":0,\"start\":0,\"done\":8,\"free\":4,\"results\":[{\"register\":\"A1\",\"done\":3},{\"register\":\"X1\",\"done\":8}],\"waits\":[]},{\"n\":3,\"parcel\":1,\"issue\":1,\"start\":1,\"done\":4,\"free\":5,\"results\":[{\"register\":\"X7\",\"done\":4}],\"waits\":[]},{\"n\":2,\"parcel\":2,\"issue\":5,\"start\":8,\"done\":11,\"free\":12,\"results\":[{\"register\":\"X6\",\"done\":11}],\"waits\":[{\"conflict\":\"first\",\"from\":2,\"to\":5,\"for\":\"unit\",\"name\":\"boolean\",\"by\":3},{\"conflict\":\"second\",\"from\":5,\"to\":8,\"for\":\"register\",\"name\":\"X1\",\"by\":1}]}],\"path\":[1,2],\"steps\":[8,4],\"lost\":{\"first\":3,\"second\":3,\"third\":0},\"bound\":12,\"best\":true,\"splits\":0}}\n";

pub(crate) const ROWS: &[Row] = &[
    ("empty input, json", JSON, "", 0, ""),
    ("one load, json", JSON, ONE_LOAD, 0, WRITTEN),
    ("one load, found with facts", JSON_DEEP, ONE_LOAD, 0, FOUND),
    (
        "one load, found by a search",
        JSON_ORDER,
        ONE_LOAD,
        0,
        FOUND,
    ),
    (
        "a label with a quote and a backslash, and a store in lower case",
        JSON,
        "* NOTE\n A\"\\  sa6 b1  REMARK\n",
        0,
        "{\"schema\":1,\"block\":1,\"label\":\"A\\\"\\\\\",\"entry\":\"A\\\"\\\\\",\"line\":2,\"last_line\":2,\"count\":1,\"parcels\":1,\"instructions\":[{\"n\":1,\"line\":2,\"text\":\"SA6 B1\",\"unit\":\"increment\",\"parcels\":1,\"works\":3,\"reads\":[\"B1\",\"X6\"],\"writes\":[\"A6\"],\"memory\":\"store\",\"after\":[]}],\"written\":{\"time\":4,\"no\":0,\"order\":[1],\"at\":[{\"n\":1,\"parcel\":0,\"issue\":0,\"start\":0,\"done\":3,\"free\":4,\"results\":[{\"register\":\"A6\",\"done\":3}],\"waits\":[]}],\"path\":[1],\"steps\":[4],\"lost\":{\"first\":0,\"second\":0,\"third\":0}},\"found\":null}\n",
    ),
    (
        "characters behind an operand's blank, with a quote and a backslash",
        JSON,
        "* NOTE\n A  sa6 b1+4ha \"\\  REMARK\n",
        0,
        "{\"schema\":1,\"block\":1,\"label\":\"A\",\"entry\":\"A\",\"line\":2,\"last_line\":2,\"count\":1,\"parcels\":2,\"instructions\":[{\"n\":1,\"line\":2,\"text\":\"SA6 B1+4HA \\\"\\\\\",\"unit\":\"increment\",\"parcels\":2,\"works\":3,\"reads\":[\"B1\",\"X6\"],\"writes\":[\"A6\"],\"memory\":\"store\",\"after\":[]}],\"written\":{\"time\":4,\"no\":0,\"order\":[1],\"at\":[{\"n\":1,\"parcel\":0,\"issue\":0,\"start\":0,\"done\":3,\"free\":4,\"results\":[{\"register\":\"A6\",\"done\":3}],\"waits\":[]}],\"path\":[1],\"steps\":[4],\"lost\":{\"first\":0,\"second\":0,\"third\":0}},\"found\":null}\n",
    ),
    (
        "a name on the line before, and two Add units",
        &["s66", "json", "--profile", "{\"units_add\":2}"],
        "SUB PS\n  BX6 X1\n",
        0,
        "{\"schema\":1,\"block\":1,\"label\":null,\"entry\":\"SUB\",\"line\":2,\"last_line\":2,\"count\":1,\"parcels\":1,\"profile\":{\"units_add\":2},\"instructions\":[{\"n\":1,\"line\":2,\"text\":\"BX6 X1\",\"unit\":\"boolean\",\"parcels\":1,\"works\":3,\"reads\":[\"X1\"],\"writes\":[\"X6\"],\"memory\":null,\"after\":[]}],\"written\":{\"time\":4,\"no\":0,\"order\":[1],\"at\":[{\"n\":1,\"parcel\":0,\"issue\":0,\"start\":0,\"done\":3,\"free\":4,\"results\":[{\"register\":\"X6\",\"done\":3}],\"waits\":[]}],\"path\":[1],\"steps\":[4],\"lost\":{\"first\":0,\"second\":0,\"third\":0}},\"found\":null}\n",
    ),
    (
        "a refused operand, json",
        JSON,
        "  BX6 X1\n  BX6 X1/X2\n",
        3,
        "LINE 2 BAD OPERAND\ns66 lint lists all such lines, --cut leaves them alone\n",
    ),
];
