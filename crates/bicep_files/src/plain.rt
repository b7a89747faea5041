// Files of values: settings that are worked out, texts of each form, operators of each level.

use crate::sample::Sample;

/// Settings of a stage, with safe accesses and conditions over several lines.
pub const SETTINGS: &str = "// The settings of a stage, worked out once and handed to the modules.
@description('prod, test, or the name of a developer.')
param stage string
param overrides object = {}
param features array = [
  'search'
  'mail'
]

var isProd = stage == 'prod'
var isShared = isProd || stage == 'test'

var size = isProd
  ? 'large'
  : isShared
    ? 'medium'
    : 'small'

var plan = overrides.?plan ?? (isProd ? 'P1v3' : 'B1')
var zones = overrides.?network.?zones[?0] ?? '1'
var owner = overrides.?owner!.name ?? overrides.owners[0]!.name
var hasMail = contains(features, 'mail') && !(overrides.?mail == false)

var limits = {
  cpu: isProd ? 4 : 1
  memory: (isProd ? 16 : 2) * 1024
  disks: max(
    1,
    length(features),
    overrides.?disks ?? 0
  )
  window: isShared ? {
    from: '01:00'
    to: '04:00'
  } : {
    from: '00:00'
    to: '23:59'
  }
}

var label = '${stage}/${size}${hasMail ? '/mail' : ''}'

output limits object = union(limits, overrides.?limits ?? {})
output plan string = plan
output label string = label
output zones array = [ zones ]
output owner string = owner
";

const SETTINGS_PARTS: &str = "\
param stage @ => @description('prod, test, or the name of a developer.')
var size => {isProd ? 'large' : {isShared ? 'medium' : 'small'}}
var plan => {overrides.?plan ?? ({isProd ? 'P1v3' : 'B1'})}
var zones => {overrides.?network.?zones[?0] ?? '1'}
var owner => {overrides.?owner!.name ?? overrides.owners[0]!.name}
var hasMail => {contains(features, 'mail') && {!({overrides.?mail == false})}}
var limits memory => {({isProd ? 16 : 2}) * 1024}
var limits disks => max(1, length(features), {overrides.?disks ?? 0})
var limits window => {isShared ? { from: '01:00', to: '04:00' } : { from: '00:00', to: '23:59' }}
var label => '${stage}/${size}${{hasMail ? '/mail' : ''}}'
output limits => object = union(limits, {overrides.?limits ?? {}})
";

/// Texts: plain, with escapes, with holes in one another, and verbatim.
pub const TEXTS: &str = "/* Texts of each form:
   plain ones, with holes, verbatim. */
param user string = 'ops'
param host string = 'example.com'
param port int = 8443

var path = 'It\\'s a path: C:\\\\temp\\\\new'
var lines = 'one\\ntwo\\r\\n\\tthree'
var dollars = 'costs $5, or \\${five}'
var smile = 'smile \\u{1F600}, dash \\u{2013}'
var address = 'https://${user}@${host}:${port}/'
var deep = 'a${'b${'c${user}'}'}d'
var summed = 'sum: ${{ a: 1, b: [ 2, 3 ] }.b[1]}'
var joined = '${user}${host}'
var nothing = ''

var unit = '''
[Unit]
Description=\"The 'orders' service\"
[Service]
ExecStart=/usr/bin/orders --host ${host}
'''
var quotes = '''it''s'''
var same = '''same line''' // nothing is cut off

var script = replace(replace(unit, '\\${host}', host), '\\n', '\\\\n')
var checked = {
  'a key with spaces': startsWith(address, 'https://')
  'it\\'s': '${port}'
  nested: [
    '${length(lines)}'
    'x${1 + 2}y${-port}z'
  ]
}

output address string = address
output script string = script
";

const TEXTS_PARTS: &str = "\
var path => 'It\\'s a path: C:\\\\temp\\\\new'
var lines => 'one\\ntwo\\r\\n\\tthree'
var dollars => 'costs \\$5, or \\${five}'
var smile => 'smile \u{1F600}, dash \u{2013}'
var address => 'https://${user}@${host}:${port}/'
var deep => 'a${'b${'c${user}'}'}d'
var summed => 'sum: ${{ a: 1, b: [2, 3] }.b[1]}'
var joined => '${user}${host}'
var unit => '[Unit]\\nDescription=\"The \\'orders\\' \
    service\"\\n[Service]\\nExecStart=/usr/bin/orders --host \\${host}\\n'
var quotes => 'it\\'\\'s'
var same => 'same line'
var script => replace(replace(unit, '\\${host}', host), '\\n', '\\\\n')
var checked a key with spaces => startsWith(address, 'https://')
var checked it's => '${port}'
var checked nested.1 => 'x${{1 + 2}}y${{-port}}z'
";

/// Operators of each level beside others, with and without parentheses.
pub const SUMS: &str = "param count int
param price int = 3
param names array = []
param options object = {}

// Each operator binds by its level, and those of one level group to the left.
var total = count * price + 10 / 2 - count % 3
var signed = -count + -(-price)
var isLarge = total > 100 + 5 * count
var isBetween = 10 <= count && count < 20
var isOdd = count % 2 == 1 != false
var same = 'Prod' =~ 'PROD' && 'a' !~ 'b' == true
var either = isLarge || isBetween && !isOdd
var chosen = options.?first ?? options.?second ?? names[?0] ?? 'none'
var mixed = options.?limit ?? count > 5 || isOdd
var picked = isLarge || isOdd ? count + 1 : isBetween ? 2 : 3
var grouped = (count + price) * (count - price) / (2 - -1)
var long = count +
  price +
  total
var several = count > 1 &&
  count < 9 ||
  isOdd
var spread = (
  count
  + price
)
var last = !options.?flags!.on && names[length(names) - 1].a.b[0] != 'x'
var chain = count >= 1 == (price <= 2)

output total int = total
output picked int = picked
";

const SUMS_PARTS: &str = "\
param count => int
param price => int = 3
var total => {{{count * price} + {10 / 2}} - {count % 3}}
var signed => {{-count} + {-({-price})}}
var isLarge => {total > {100 + {5 * count}}}
var isBetween => {{10 <= count} && {count < 20}}
var isOdd => {{{count % 2} == 1} != false}
var same => {{'Prod' =~ 'PROD'} && {{'a' !~ 'b'} == true}}
var either => {isLarge || {isBetween && {!isOdd}}}
var chosen => {{{options.?first ?? options.?second} ?? names[?0]} ?? 'none'}
var mixed => {options.?limit ?? {{count > 5} || isOdd}}
var picked => {{isLarge || isOdd} ? {count + 1} : {isBetween ? 2 : 3}}
var grouped => {{({count + price}) * ({count - price})} / ({2 - {-1}})}
var long => {{count + price} + total}
var several => {{{count > 1} && {count < 9}} || isOdd}
var spread => ({count + price})
var last => {{!options.?flags!.on} && {names[{length(names) - 1}].a.b[0] != 'x'}}
var chain => {{count >= 1} == ({price <= 2})}
";

/// The files, with what each declares and some of its parts.
pub const SAMPLES: [Sample; 3] = [
    (
        SETTINGS,
        "17: param stage, param overrides, param features, var isProd, var isShared, var size, \
         var plan, var zones, var owner, var hasMail, var limits, var label, output limits, \
         output plan, output label, output zones, output owner",
        SETTINGS_PARTS,
    ),
    (
        TEXTS,
        "19: param user, param host, param port, var path, var lines, var dollars, var smile, \
         var address, var deep, var summed, var joined, var nothing, var unit, var quotes, \
         var same, var script, var checked, output address, output script",
        TEXTS_PARTS,
    ),
    (
        SUMS,
        "22: param count, param price, param names, param options, var total, var signed, \
         var isLarge, var isBetween, var isOdd, var same, var either, var chosen, var mixed, \
         var picked, var grouped, var long, var several, var spread, var last, var chain, \
         output total, output picked",
        SUMS_PARTS,
    ),
];
